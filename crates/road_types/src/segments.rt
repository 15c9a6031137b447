// The segment of a station, and the starts and lengths of segments.
ghost use Rattle.std.specs.Prelude.{◌≡◌, ◌^◌, ◌≤◌, length, pos, ◌-ℤ◌, unsigned_abs};
ghost use Rattle.road_types.specs.Numbered.{numbered, IsNumber};
ghost use Rattle.road_types.specs.Road.{segment_count};
ghost use Rattle.road_types.specs.Heights.{knots_before, segment_at, segment_start, segment_length, IsInSegment};
ghost use Rattle.road_types.specs.WellFormed.{IsWellFormed, IsOnKnots};

use crate::Road;

impl Road {
    /// The number of the first segment that ends at the station or after it.
    pub fn segment_of(&self, station: i64) -> usize
        requires well_formed { IsWellFormed self.now }
        requires station { IsOnKnots self.now station }
        ensures value { result ≡ segment_at self.now.knots station }
        ensures inside { IsInSegment self.now.knots result station }
    {
        1 + knots_before(&self.knots.as_slice()[1..], station)
    }

    /// How many steps a station lies after a segment's start.
    pub fn steps_from(&self, segment: usize, station: i64) -> i64
        requires well_formed { IsWellFormed self.now }
        requires segment { IsNumber segment (segment_count self.now) }
        requires station { IsOnKnots self.now station }
        ensures value { result ≡ station -ℤ segment_start self.now.knots segment }
        ensures width { unsigned_abs result ≤ 2 ^ 17 }
    {
        station - self.knot(segment)
    }

    /// The length of a segment in steps.
    pub fn segment_length(&self, segment: usize) -> i64
        requires well_formed { IsWellFormed self.now }
        requires segment { IsNumber segment (segment_count self.now) }
        ensures value { result ≡ segment_length self.now.knots segment }
        ensures width { unsigned_abs result ≤ 2 ^ 17 }
    {
        self.knot(segment + 1) - self.knot(segment)
    }

    /// The station of a knot by its number, from 1: where the segment with this number starts, or the last one ends.
    pub fn knot(&self, number: usize) -> i64
        requires { IsNumber number (length self.now.knots) }
        ensures { result ≡ numbered (pos 0) self.now.knots number }
    {
        self.knots.as_slice()[number - 1]
    }
}

/// How many of the knots, from the first on, lie before the station.
fn knots_before(knots: &[i64], station: i64) -> usize
    ensures { result ≡ knots_before knots.now station }
{
    for (before, knot) in knots.iter().enumerate() {
        if *knot >= station {
            return before;
        }
    }
    knots.len()
}
