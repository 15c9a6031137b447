// Ranges of offsets.
ghost use Rattle.std.specs.Prelude.{◌≡◌, length};
ghost use Rattle.algebra.specs.Numbered.{IsNumber};
ghost use Rattle.road_types.specs.Ranges.{height_range};

use road_types::Listed;

/// A range of offsets for each section, in mm, both ends included.
#[derive(Debug, Drop)]
pub struct Ranges {
    /// The least and the greatest offset of each section.
    pub heights: Listed<(i64, i64)>,
}

impl Ranges {
    /// The range of the section with this number, from 1.
    pub(crate) fn at(&self, section: usize) -> (i64, i64)
        requires { IsNumber section (length self.now.heights) }
        ensures { result ≡ height_range self.now.heights section }
    {
        self.heights.as_slice()[section - 1]
    }
}
