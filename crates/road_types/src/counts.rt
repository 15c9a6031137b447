// How many rows and columns the program of a road has.
ghost use Rattle.std.specs.Prelude.{◌≡◌, ℕ, ◌*◌, ◌-◌, ◌≤◌, length};
ghost use Rattle.road_types.specs.WellFormed.{IsCounted};
ghost use Rattle.road_types.specs.Columns.{columns_of, column_count, stage_width, stages_before, blocks_before};
ghost use Rattle.road_types.specs.Lines.{Lines};
ghost use Rattle.road_types.specs.RoadPrograms.{forms_of, section_row_count, haul_row_count, row_count};

use crate::Road;

impl Road {
    /// The number of rows of the road's program.
    pub fn row_count(&self) -> usize
        requires { IsCounted self.now }
        ensures value { result ≡ row_count self.now }
        ensures rows { (lines : ℕ → Lines) → length (forms_of self.now lines) ≡ result }
    {
        section_row_count(self) + haul_row_count(self)
    }

    /// The number of columns of the road's program.
    pub fn column_count(&self) -> usize
        requires { IsCounted self.now }
        ensures value { result ≡ column_count self.now }
        ensures columns { length (columns_of self.now) ≡ result }
    {
        blocks_before(self) + product(self.blocks.len(), self.stages - 1)
    }
}

/// The number of rows for heights and volumes.
pub(crate) fn section_row_count(road: &Road) -> usize
    requires { IsCounted road.now }
    ensures value { result ≡ section_row_count road.now }
    ensures few { result ≤ 1000 }
{
    let sections = road.sections.len();
    let segments = road.knots.len() - 1;
    sections + 2 * (segments - 1) + 2 * segments + 2 * road.fixed.len() + 4 * sections
}

/// The number of rows for what is moved.
fn haul_row_count(road: &Road) -> usize
    requires { IsCounted road.now }
    ensures value { result ≡ haul_row_count road.now }
    ensures few { result ≤ 1000 }
{
    let blocks = road.blocks.len();
    product(road.stages, road.sections.len())
        + road.pits.len()
        + product(blocks, road.stages)
        + product(blocks, 2 * (road.stages - 1))
        + product(blocks, later_stages(road))
}

/// The number of stages behind the second one.
fn later_stages(road: &Road) -> usize
    requires { IsCounted road.now }
    ensures { result ≡ road.now.stages - 2 }
{
    road.stages.saturating_sub(2)
}

/// The number of columns of a stage.
pub(crate) fn stage_width(road: &Road) -> usize
    requires { IsCounted road.now }
    ensures value { result ≡ stage_width road.now }
    ensures few { result ≤ 300 }
{
    2 * road.sections.len() + (2 * road.hops.len() + road.roads.len())
}

/// The number of columns before those of the stages.
pub(crate) fn stages_before(road: &Road) -> usize
    requires { IsCounted road.now }
    ensures value { result ≡ stages_before road.now }
    ensures few { result ≤ 100 }
{
    3 * (road.knots.len() - 1) + road.sections.len()
}

/// The number of columns before those of the blocks.
pub(crate) fn blocks_before(road: &Road) -> usize
    requires { IsCounted road.now }
    ensures value { result ≡ blocks_before road.now }
    ensures few { result ≤ 1300 }
{
    stages_before(road) + product(road.stages, stage_width(road))
}

/// The product of two small numbers.
pub(crate) fn product(few: usize, many: usize) -> usize
    requires few { few ≤ 4 }
    requires many { many ≤ 300 }
    ensures value { result ≡ few * many }
    ensures small { result ≤ 1200 }
{
    few * many
}
