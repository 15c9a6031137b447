// Whole numbers by a sign and a magnitude.
ghost use Rattle.std.specs.Prelude.{◌≡◌, ◌↔◌, ◌-ℤ◌, ◌<ℤ◌, IsTrue};
ghost use Rattle.wide_products.specs.Naturals.{natural_of, signed, whole_of};

use crate::magnitude::{Magnitude, difference, is_less};
use crate::wide::Wide;

/// A magnitude less another, both with one sign.
pub(crate) fn signed_difference(negative: bool, a: Magnitude, b: Magnitude) -> Wide
    ensures { whole_of result ≡ signed negative (natural_of a) -ℤ signed negative (natural_of b) }
{
    if is_less(a, b) {
        Wide {
            negative: !negative,
            magnitude: difference(b, a),
        }
    } else {
        Wide {
            negative,
            magnitude: difference(a, b),
        }
    }
}

/// Whether the first number is below the second.
pub(crate) fn is_below(a: Wide, b: Wide) -> bool
    ensures { IsTrue result ↔ (whole_of a <ℤ whole_of b) }
{
    if a.negative == b.negative {
        if a.negative {
            is_less(b.magnitude, a.magnitude)
        } else {
            is_less(a.magnitude, b.magnitude)
        }
    } else {
        a.negative && !(is_zero(a.magnitude) && is_zero(b.magnitude))
    }
}

/// Whether the magnitude is 0.
pub(crate) fn is_zero(m: Magnitude) -> bool
    ensures { IsTrue result ↔ (natural_of m ≡ 0) }
{
    m.high == 0 && m.low == 0
}
