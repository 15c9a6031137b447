// The files of the runs, and what is due for them.

/// One section that is cut to a fixed height, and a waste pit.
pub(crate) const PIT_ROAD: &[u8] = b"\
version = 1
step = 20
stages = 1
knots = [0, 1]
low = 0
high = 2000
grade = [0, 0]
curve = 0

[[section]]
station = 0
ground = 1000
cut = [[1000, 50]]
fill = [[1000, 50]]
cut_cost = 3
fill_cost = 2
cut_max = 100000
fill_max = 100000

[[hop]]
right_cost = 4
right_max = 50000
left_cost = 4
left_max = 50000

[[fixed]]
station = 0
low = 0
high = 0

[[pit]]
name = \"tip\"
kind = \"waste\"
capacity = 50000
cost = 1

[[road]]
pit = \"tip\"
section = 1
cost = 2
max = 50000
";

/// The report of its cheapest plan.
pub(crate) const PIT_REPORT: &[u8] = b"\
road sections 1 stages 1 step 20
cost 300000/1
bound 300000/1
gap none
open nodes 0 pivots 0 width 0
profile
section,station,metres,ground,height,offset,net
1,0,0,1000,0/1,-1000/1,-50000/1
earthwork
stage,section,cut,fill
1,1,50000/1,0/1
haul
stage,from,to,litres
1,section 1,pit tip,50000/1
blocks
block,section,stage
costs
item,cost
cut,150000/1
fill,0/1
haul,0/1
access,150000/1
removal,0/1
total,300000/1
";

/// Two sections with a hop between them.
pub(crate) const PAIR_ROAD: &[u8] = b"\
version = 1
step = 20
stages = 1
knots = [0, 1]
low = 0
high = 2000
grade = [0, 0]
curve = 0

[[section]]
station = 0
ground = 1000
cut = [[1000, 50]]
fill = [[1000, 50]]
cut_cost = 3
fill_cost = 2
cut_max = 100000
fill_max = 100000

[[section]]
station = 1
ground = 0
cut = [[1000, 50]]
fill = [[1000, 50]]
cut_cost = 3
fill_cost = 2
cut_max = 100000
fill_max = 100000

[[hop]]
right_cost = 4
right_max = 50000
left_cost = 4
left_max = 50000
";

/// The same with hauls that cost 5.
pub(crate) const PAIR_ROAD_DEARER: &[u8] = b"\
version = 1
step = 20
stages = 1
knots = [0, 1]
low = 0
high = 2000
grade = [0, 0]
curve = 0

[[section]]
station = 0
ground = 1000
cut = [[1000, 50]]
fill = [[1000, 50]]
cut_cost = 3
fill_cost = 2
cut_max = 100000
fill_max = 100000

[[section]]
station = 1
ground = 0
cut = [[1000, 50]]
fill = [[1000, 50]]
cut_cost = 3
fill_cost = 2
cut_max = 100000
fill_max = 100000

[[hop]]
right_cost = 5
right_max = 50000
left_cost = 5
left_max = 50000
";

/// Its cheapest plan.
pub(crate) const PAIR_PLAN: &[u8] = b"\
plan 1
piece 500 0 0
cut 25000 0
fill 0 25000
right 25000
left 0
roads
open
end
";

/// The same with a litre less hauled.
pub(crate) const PAIR_PLAN_OFF: &[u8] = b"\
plan 1
piece 500 0 0
cut 25000 0
fill 0 25000
right 24999
left 0
roads
open
end
";

/// A certificate of it.
pub(crate) const PAIR_CERT: &[u8] = b"\
certificate
plan 1
piece 500 0 0
cut 25000 0
fill 0 25000
right 25000
left 0
roads
open
end
cost 225000/1
bound 225000/1
low 2 closed 6
m 1 450
m 2 -450
m 6 9
m 9 9
m 13 -3
m 14 5
end
";

/// The report of its cheapest plan.
pub(crate) const PAIR_REPORT: &[u8] = b"\
road sections 2 stages 1 step 20
cost 225000/1
bound 225000/1
gap none
open nodes 0 pivots 0 width 0
profile
section,station,metres,ground,height,offset,net
1,0,0,1000,500/1,-500/1,-25000/1
2,1,20,0,500/1,500/1,25000/1
earthwork
stage,section,cut,fill
1,1,25000/1,0/1
1,2,0/1,25000/1
haul
stage,from,to,litres
1,section 1,section 2,25000/1
blocks
block,section,stage
costs
item,cost
cut,75000/1
fill,50000/1
haul,100000/1
access,0/1
removal,0/1
total,225000/1
";

/// The mass diagram of its plan.
pub(crate) const PAIR_MASS: &[u8] = b"\
mass
stage,hop,from,to,net
1,1,1,2,25000/1
zones
stage,from,to,direction,peak
1,1,2,right,25000/1
moment
stage,litremetres
1,500000/1
";

/// Three sections, a block at the second, and two stages.
pub(crate) const BLOCK_ROAD: &[u8] = b"\
version = 1
step = 20
stages = 2
knots = [0, 2]
low = 0
high = 2000
grade = [0, 0]
curve = 0

[[section]]
station = 0
ground = 1000
cut = [[1000, 50]]
fill = [[1000, 50]]
cut_cost = 3
fill_cost = 2
cut_max = 100000
fill_max = 100000

[[section]]
station = 1
ground = 500
cut = [[1000, 50]]
fill = [[1000, 50]]
cut_cost = 3
fill_cost = 2
cut_max = 0
fill_max = 0

[[section]]
station = 2
ground = 0
cut = [[1000, 50]]
fill = [[1000, 50]]
cut_cost = 3
fill_cost = 2
cut_max = 100000
fill_max = 100000

[[hop]]
right_cost = 4
right_max = 50000
left_cost = 4
left_max = 50000

[[block]]
section = 2
cost = 1000
";

/// Its cheapest plan.
pub(crate) const BLOCK_PLAN: &[u8] = b"\
plan 1
piece 500 0 0
cut 0 0 0
fill 0 0 0
right 0 0
left 0 0
roads
cut 25000 0 0
fill 0 0 25000
right 25000 25000
left 0 0
roads
open 2
end
";

/// The same with a litre less hauled over the second hop.
pub(crate) const BLOCK_PLAN_OFF: &[u8] = b"\
plan 1
piece 500 0 0
cut 0 0 0
fill 0 0 0
right 0 0
left 0 0
roads
cut 25000 0 0
fill 0 0 25000
right 25000 24999
left 0 0
roads
open 2
end
";

/// A certificate of it.
pub(crate) const BLOCK_CERT: &[u8] = b"\
certificate
plan 1
piece 500 0 0
cut 0 0 0
fill 0 0 0
right 0 0
left 0 0
roads
cut 25000 0 0
fill 0 0 25000
right 25000 25000
left 0 0
roads
open 2
end
cost 326000/1
bound 326000/1
split removal 1 2
low 1 closed 10
m 1 550
m 2 -450
m 3 -100
m 7 11
m 10 9
m 14 2
m 18 -8
m 19 -4
m 21 -8
m 22 -4
dead 10
m 1 50
m 2 -50
m 7 1
m 10 1
m 18 -1
m 19 -1
m 21 -1
m 22 -1
m 24 1
m 25 1
end
";

/// The report of its cheapest plan.
pub(crate) const BLOCK_REPORT: &[u8] = b"\
road sections 3 stages 2 step 20
cost 326000/1
bound 326000/1
gap none
open nodes 0 pivots 0 width 0
profile
section,station,metres,ground,height,offset,net
1,0,0,1000,500/1,-500/1,-25000/1
2,1,20,500,500/1,0/1,0/1
3,2,40,0,500/1,500/1,25000/1
earthwork
stage,section,cut,fill
2,1,25000/1,0/1
2,3,0/1,25000/1
haul
stage,from,to,litres
2,section 1,section 2,25000/1
2,section 2,section 3,25000/1
blocks
block,section,stage
1,2,2
costs
item,cost
cut,75000/1
fill,50000/1
haul,200000/1
access,0/1
removal,1000/1
total,326000/1
";

/// Twelve sections, which stand in a table.
pub(crate) const TABLE_ROAD: &[u8] = b"\
version = 1
step = 20
stages = 2
knots = [0, 4, 8, 11]
low = -5000
high = 15000
grade = [-1200, 1200]
curve = 150
nodes = 31
pivots = 1000
table = \"road20.csv\"

[[hop]]
right_cost = 4
right_max = 5000000
left_cost = 4
left_max = 5000000

[[fixed]]
station = 0
low = -200
high = 200

[[fixed]]
station = 11
low = 1200
high = 1600

[[pit]]
name = \"quarry\"
kind = \"borrow\"
capacity = 20000000
cost = 6

[[pit]]
name = \"tip\"
kind = \"waste\"
capacity = 20000000
cost = 2

[[road]]
pit = \"quarry\"
section = 3
cost = 3
max = 10000000

[[road]]
pit = \"tip\"
section = 10
cost = 2
max = 10000000

[[block]]
section = 6
cost = 250000
";

/// That table.
pub(crate) const TABLE: &[u8] = b"\
station,ground,cut,fill,cut_cost,fill_cost,cut_max,fill_max
0,0,2000:200 2000:260,2000:220 2000:300,3,2,2000000,2000000
1,400,2000:200 2000:260,2000:220 2000:300,3,2,2000000,2000000
2,1300,2000:200 2000:260,2000:220 2000:300,3,2,2000000,2000000
3,2100,2000:200 2000:260,2000:220 2000:300,3,2,2000000,2000000
4,1800,2000:200 2000:260,2000:220 2000:300,3,2,2000000,2000000
5,600,2000:200 2000:260,2000:220 2000:300,3,2,2000000,2000000
6,-700,2000:200 2000:260,2000:220 2000:300,3,2,2000000,2000000
7,-1200,2000:200 2000:260,2000:220 2000:300,3,2,2000000,2000000
8,-400,2000:200 2000:260,2000:220 2000:300,3,2,2000000,2000000
9,900,2000:200 2000:260,2000:220 2000:300,3,2,2000000,2000000
10,1500,2000:200 2000:260,2000:220 2000:300,3,2,2000000,2000000
11,1400,2000:200 2000:260,2000:220 2000:300,3,2,2000000,2000000
";
