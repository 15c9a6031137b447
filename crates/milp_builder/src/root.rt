// The box of all plans.
ghost use Rattle.std.specs.Prelude.{◌≡◌, ◌+◌, ◌≤◌, IfOk, map, None};
ghost use Rattle.std.specs.List.{All};
ghost use Rattle.road_types.specs.Faults.{road_fault};
ghost use Rattle.road_types.specs.WellFormed.{IsWellFormed};
ghost use Rattle.plan_rules.specs.Rules.{IsAdmissible};
ghost use Rattle.plan_rules.specs.declared.plan.Plan.{Plan};
ghost use Rattle.road_types.specs.Ranges.{whole_range};
ghost use Rattle.volume_lines.specs.SlabTables.{HasSlabTables};
ghost use Rattle.milp_builder.specs.Boxes.{root_box, IsBoxOf, IsInside};

use crate::boxes::BoxRange;
use road_types::{Block, Listed, Road, Section, thickness_of};
use std::alloc::{AllocError, Global};

/// The box with all openings and all offsets within the slabs: every admissible plan is inside it.
#[tactic(auto, using(crate::proofs::RootBox::root_box_fits, crate::proofs::RootBox::root_box_covers))]
pub fn root_box(alloc: Global, road: &Road) -> Result<BoxRange, AllocError>
    requires { road_fault road.now ≡ None }
    ensures value { IfOk result (λ range. range ≡ root_box road.now) }
    ensures fits { IfOk result (λ range. IsBoxOf road.now range) }
    ensures covers { IfOk result (λ range. (plan : Plan) → IsAdmissible road.now plan → IsInside road.now plan range) }
{
    whole_box(alloc, road)
}

fn whole_box(alloc: Global, road: &Road) -> Result<BoxRange, AllocError>
    requires { IsWellFormed road.now }
    ensures { IfOk result (λ range. range ≡ root_box road.now) }
{
    let opens = all_openings(alloc, road.stages, road.blocks.as_slice())?;
    let heights = whole_ranges(alloc, road.sections.as_slice())?;
    Ok(BoxRange {
        opens: Listed::new(opens),
        heights: Listed::new(heights),
    })
}

/// Every opening stage, for each block.
fn all_openings(alloc: Global, stages: usize, blocks: &[Block]) -> Result<Vec<(u8, u8)>, AllocError>
    requires { stages ≤ 4 }
    ensures { IfOk result (λ opens. opens.items ≡ map (λ block. (2, stages + 1)) blocks.now) }
{
    let never = stages as u8 + 1;
    blocks.iter().map(|_block| (2, never)).collect(alloc)
}

/// Every offset within the slabs, for each section.
fn whole_ranges(alloc: Global, sections: &[Section]) -> Result<Vec<(i64, i64)>, AllocError>
    requires { All HasSlabTables sections.now }
    ensures { IfOk result (λ heights. heights.items ≡ map whole_range sections.now) }
{
    let mut heights = Vec::new(alloc);
    for section in sections {
        heights.push(whole_range(section))?;
    }
    Ok(heights)
}

/// From the bottom of a section's cut to the top of its fill, in mm.
fn whole_range(section: &Section) -> (i64, i64)
    requires { HasSlabTables section.now }
    ensures { result ≡ whole_range section.now }
{
    (
        -thickness_of(section.cut.as_slice()),
        thickness_of(section.fill.as_slice()),
    )
}
