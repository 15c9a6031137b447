// Linear programs solved to their end.
ghost use Rattle.std.specs.Prelude.{◌≡◌, ◌<◌, ◌≤◌, ◌^◌, ◌-◌, ℕ, [], length, pos, ◌<ℤ◌, vec_capacity, IfOk, IfErr};
ghost use Rattle.algebra.specs.Lists.{list_to};
ghost use Rattle.programs.specs.Programs.{Program, column_count, row_count};
ghost use Rattle.safe_bounds.specs.Values.{HasRightSigns, value_of};
ghost use Rattle.tableau.specs.Ends.{IsEmptyRow, IsOptimal};
ghost use Rattle.tableau.specs.Operations.{IsOutOfRange, IsWideNumber};
ghost use Rattle.tableau.specs.OwnNumbers.{ray_of};
ghost use Rattle.simplex.specs.Choices.{IsChoice, StopsAfter};
ghost use Rattle.simplex.specs.Ends.{AreOwnNumbers, AreWithin, HasNumbersWithin, IsEnd, IsEndOfEither, IsReached, IsWideAtStart};
ghost use Rattle.simplex.specs.Givens.{given_of};
ghost use Rattle.simplex.specs.Starts.{IsInRange};
ghost use Rattle.simplex.specs.States.{tableau_of};
ghost use Rattle.simplex.specs.inside.OwnOptima.{IsOwnOptimum};
ghost use Rattle.simplex.specs.inside.Rooms.{IsRoomBehind, IsRoomFor};

use crate::choice::Choice;
use crate::lp::Lp;
use crate::lp_end::{LpEnd, Used};
use crate::numbers_of::{fill_slacks, ray_turns};
use crate::running::run;
use crate::table::Tableau;
use numbers::{Narrow, Whole};
use sparse_rows::entry;
use std::alloc::{AllocError, Global};
use tableau::{Bound, Exchange, Op};

/// Room for the lists of an end: a trail, a point, a ray and multipliers.
#[derive(Drop)]
pub(crate) struct Room {
    trail: Vec<Exchange>,
    point: Vec<i128>,
    ray: Vec<i128>,
    mults: Vec<i128>,
}

impl Room {
    /// Empty lists with room for so many exchanges, columns and rows.
    fn new(alloc: Global, exchanges: usize, columns: usize, rows: usize) -> Result<Room, AllocError>
        ensures { IfOk result (λ room. IsRoomFor exchanges columns rows room) }
    {
        Ok(Room {
            trail: Vec::with_capacity(alloc, exchanges)?,
            point: Vec::with_capacity(alloc, columns)?,
            ray: Vec::with_capacity(alloc, rows)?,
            mults: Vec::with_capacity(alloc, rows)?,
        })
    }
}

impl<'a, W: Narrow> Tableau<'a, W> {
    /// Puts the multipliers of the rows into `mults`, which has room for them, and answers the scale.
    fn own_numbers(&self, mults: &mut Vec<i128>) -> i128
        requires none { mults.old.items ≡ [] }
        requires room { row_count self.now.program ≤ vec_capacity mults.old }
        ensures own { AreOwnNumbers self.now.program (tableau_of W.meaning self.now) result mults.new.items }
        ensures within { AreWithin W.greatest mults.new.items }
    {
        let columns = self.columns();
        let rows = self.rows();
        let costs = self.line(0);
        fill_slacks(costs, columns, rows, false, mults);
        entry(costs, 0).wide()
    }

    /// Puts the ray of an empty row into `ray`, which has room for a multiplier of each row.
    fn fill_ray(&self, row: usize, broken: Bound, ray: &mut Vec<i128>)
        requires none { ray.old.items ≡ [] }
        requires room { row_count self.now.program ≤ vec_capacity ray.old }
        requires empty { IsEmptyRow (tableau_of W.meaning self.now) row broken }
        ensures own { ray.new.items ≡ ray_of (tableau_of W.meaning self.now) row broken }
        ensures signs { HasRightSigns self.now.program ray.new.items }
        ensures above { pos 0 <ℤ value_of self.now.program (pos 0) ray.new.items }
        ensures within { AreWithin W.greatest ray.new.items }
    {
        let columns = self.columns();
        let rows = self.rows();
        let turns = ray_turns(broken, self.pivot(row));
        fill_slacks(self.line(row), columns, rows, turns, ray);
    }

    /// Puts the point of an optimal tableau into `point`, which has room for a coordinate of each column, and answers its
    /// denominator. `Err` with an operation that is out of range.
    fn fill_optimum(&self, point: &mut Vec<i128>) -> Result<i128, Op>
        requires none { point.old.items ≡ [] }
        requires room { column_count self.now.program ≤ vec_capacity point.old }
        requires optimal { IsOptimal (tableau_of W.meaning self.now) }
        ensures capacity { vec_capacity point.new ≡ vec_capacity point.old }
        ensures optimum { IfOk result (λ den. IsOwnOptimum self.now.program (tableau_of W.meaning self.now) den point.new.items) }
        ensures wide { IfErr result (λ op. IsOutOfRange W.greatest (tableau_of W.meaning self.now) op) }
    {
        let rows = self.rows();
        let den = match self.denominator() {
            Ok(den) => den,
            Err(op) => return Err(op),
        };
        let Some(number) = den.narrow() else {
            return Err(Op::Join { row: rows as u16 });
        };
        match self.fill_point(den, point) {
            Ok(()) => Ok(number),
            Err(op) => Err(op),
        }
    }

    /// The end of the program at this tableau, behind the trail, where no further exchange is made.
    fn end(&self, choice: Choice, room: Room) -> LpEnd
        requires room { IsRoomBehind (column_count self.now.program) (row_count self.now.program) room }
        requires choice { IsChoice W.greatest (tableau_of W.meaning self.now) choice }
        ensures end { (budget : ℕ) → IsReached self.now.program budget room.trail.items (tableau_of W.meaning self.now)
            → StopsAfter budget (length room.trail.items) choice → IsEnd W.greatest self.now.program budget result }
        ensures within { HasNumbersWithin W.greatest result }
    {
        let Room {
            trail,
            mut point,
            mut ray,
            mut mults,
        } = room;
        let scale = self.own_numbers(&mut mults);
        match choice {
            Choice::Optimal => match self.fill_optimum(&mut point) {
                Ok(den) => LpEnd::Best {
                    trail,
                    den,
                    point,
                    scale,
                    mults,
                },
                Err(op) => {
                    point.clear();
                    self.fill_rough(&mut point);
                    LpEnd::Wide {
                        trail,
                        op,
                        scale,
                        mults,
                        rough: point,
                    }
                }
            },
            Choice::Empty { row, broken } => {
                self.fill_ray(row, broken, &mut ray);
                LpEnd::Empty {
                    trail,
                    ray,
                    scale,
                    mults,
                }
            }
            Choice::Good(_) => {
                self.fill_rough(&mut point);
                LpEnd::Pivots {
                    trail,
                    scale,
                    mults,
                    rough: point,
                }
            }
            Choice::Wide(op) => {
                self.fill_rough(&mut point);
                LpEnd::Wide {
                    trail,
                    op,
                    scale,
                    mults,
                    rough: point,
                }
            }
        }
    }
}

/// The end of a program of so many rows, whose number at a row and a column is out of range: at the start the scale is 1, and
/// no row has a multiplier.
fn end_at_start(rows: usize, row: usize, col: usize, room: Room) -> LpEnd
    requires row { row < 65536 }
    requires col { col < 65536 }
    requires trail { room.trail.items ≡ [] }
    requires none { room.mults.items ≡ [] }
    requires room { rows ≤ vec_capacity room.mults }
    ensures end { (greatest : ℕ) (program : Program) (budget : ℕ) → row_count program ≡ rows → IsWideNumber greatest (given_of program) row col
        → IsEnd greatest program budget result }
    ensures at_start { (greatest : ℕ) (program : Program) → IsWideNumber greatest (given_of program) row col → IsWideAtStart greatest program result }
    ensures within { (greatest : ℕ) → HasNumbersWithin greatest result }
{
    let Room {
        trail,
        point,
        mut mults,
        ..
    } = room;
    fill_zeros(rows, &mut mults);
    LpEnd::Wide {
        trail,
        op: Op::Value {
            row: row as u16,
            col: col as u16,
        },
        scale: 1,
        mults,
        rough: point,
    }
}

/// Puts so many zeros into a list that has room for them.
fn fill_zeros(count: usize, list: &mut Vec<i128>)
    requires none { list.old.items ≡ [] }
    requires room { count ≤ vec_capacity list.old }
    ensures { list.new.items ≡ list_to (λ _. pos 0) count }
{
    for _row in 0..count {
        list.push_reserved(0);
    }
}

/// Runs the dual simplex over numbers of W's range, by at most `budget` exchanges. All memory, that of the answer too, is
/// taken at the start. Where a number of the program is out of range, the end is `Wide` with an empty trail and the place of such a
/// number. `AllocError` where memory can't be had.
pub fn solve<W: Narrow>(alloc: Global, lp: &Lp<'_>, budget: u32) -> Result<LpEnd, AllocError>
    requires { 1 ≤ budget }
    ensures end { IfOk result (λ end. IsEnd W.greatest lp.now.milp.now budget end) }
    ensures at_start { IfOk result (λ end. (IsInRange W.greatest (given_of lp.now.milp.now) → ⊥) → IsWideAtStart W.greatest lp.now.milp.now end) }
    ensures within { IfOk result (λ end. HasNumbersWithin W.greatest end) }
{
    let columns = lp.milp.columns();
    let rows = lp.milp.rows();
    let mut room = Room::new(alloc, budget as usize, columns, rows)?;
    match Tableau::<W>::begin(alloc, lp)? {
        Ok(mut tableau) => {
            let choice = run(&mut tableau, &mut room.trail, budget);
            let end = tableau.end(choice, room);
            drop(tableau);
            Ok(end)
        }
        Err((row, col)) => Ok(end_at_start(rows, row, col, room)),
    }
}

/// Runs the dual simplex over numbers of N's range, and from the start again over those of M's where an operation is out of
/// N's range. `AllocError` where memory can't be had.
pub fn solve_either<N: Narrow, M: Narrow>(
    alloc: Global,
    lp: &Lp<'_>,
    budget: u32,
) -> Result<(LpEnd, Used), AllocError>
    requires { 1 ≤ budget }
    ensures end { IfOk result (λ (end, used). IsEndOfEither N.greatest M.greatest lp.now.milp.now budget end used) }
    ensures within { IfOk result (λ (end, _). HasNumbersWithin (2 ^ 127 - 1) end) }
{
    match solve::<N>(alloc, lp, budget)? {
        LpEnd::Wide {
            trail,
            op,
            mults,
            rough,
            ..
        } => {
            drop(mults);
            drop(rough);
            match solve::<M>(alloc, lp, budget) {
                Ok(end) => Ok((end, Used::Second { trail, op })),
                Err(error) => {
                    drop(trail);
                    Err(error)
                }
            }
        }
        end => Ok((end, Used::First)),
    }
}
