// What stands on a road by its number, which begins at 1.
ghost use Rattle.std.specs.Prelude.{◌≡◌};
ghost use Rattle.road_types.specs.Numbered.{IsNumber};
ghost use Rattle.road_types.specs.WellFormed.{IsWellFormed};
ghost use Rattle.road_types.specs.Road.{section, hop, fixed_point, pit, access, block, section_count, hop_count, fixed_count, pit_count, access_count, block_count, access_unit_cost, serves};

use crate::{Access, Block, Fixed, Hop, Pit, PitKind, Road, Section};

impl Road {
    /// The section with this number, from 1.
    pub fn section(&self, number: usize) -> &Section
        requires { IsNumber number (section_count self.now) }
        ensures { result.now ≡ section self.now number }
    {
        &self.sections.as_slice()[number - 1]
    }

    /// The hop with this number, from 1; hop h joins section h and section h+1.
    pub fn hop(&self, number: usize) -> Hop
        requires { IsNumber number (hop_count self.now) }
        ensures { result ≡ hop self.now number }
    {
        self.hops.as_slice()[number - 1]
    }

    /// The fixed point with this number, from 1.
    pub fn fixed_point(&self, number: usize) -> Fixed
        requires { IsNumber number (fixed_count self.now) }
        ensures { result ≡ fixed_point self.now number }
    {
        self.fixed.as_slice()[number - 1]
    }

    /// The pit with this number, from 1.
    pub fn pit(&self, number: usize) -> &Pit
        requires { IsNumber number (pit_count self.now) }
        ensures { result.now ≡ pit self.now number }
    {
        &self.pits.as_slice()[number - 1]
    }

    /// The access road with this number, from 1.
    pub fn access(&self, number: usize) -> Access
        requires { IsNumber number (access_count self.now) }
        ensures { result ≡ access self.now number }
    {
        self.roads.as_slice()[number - 1]
    }

    /// The block with this number, from 1.
    pub fn block(&self, number: usize) -> Block
        requires { IsNumber number (block_count self.now) }
        ensures { result ≡ block self.now number }
    {
        self.blocks.as_slice()[number - 1]
    }

    /// What a litre on an access road costs, with its pit, in cost units.
    pub fn access_unit_cost(&self, number: usize) -> i64
        requires well_formed { IsWellFormed self.now }
        requires number { IsNumber number (access_count self.now) }
        ensures { result ≡ access_unit_cost self.now number }
    {
        let access = self.access(number);
        access.cost + self.pit(access.pit).cost
    }

    /// Whether an access road stands at a section and its pit is of a kind.
    pub fn serves(&self, kind: PitKind, section: usize, number: usize) -> bool
        requires well_formed { IsWellFormed self.now }
        requires number { IsNumber number (access_count self.now) }
        ensures { result ≡ serves self.now kind section number }
    {
        let access = self.access(number);
        access.section == section && self.pit(access.pit).kind == kind
    }
}
