// Numbers over a denominator between two whole numbers.
ghost use Rattle.std.specs.Prelude.{◌↔◌, IsTrue};
ghost use Rattle.algebra.specs.Scale.{IsScale};
ghost use Rattle.plan_rules.specs.Rules.{IsWithin};

use crate::logic::both;
use algebra::{at_most, scaled};

/// Whether `low*den <= x <= high*den`.
pub fn is_within(low: i64, high: i64, den: i128, x: i128) -> bool
    requires den { IsScale den }
    ensures { IsTrue result ↔ IsWithin low high den x }
{
    both(at_most(scaled(low, den), x), at_most(x, scaled(high, den)))
}
