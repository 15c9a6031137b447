// The greatest common divisor of natural numbers below 2^256.
ghost use Rattle.std.specs.Prelude.{◌≤◌};
ghost use Rattle.std.specs.Int.{IsGcd};
ghost use Rattle.wide_products.specs.Naturals.{natural_of};

use crate::dividing::{reduced, remainder};
use crate::magnitude::{Magnitude, is_less, low_half};
use numbers::magnitude_gcd;

/// The greatest common divisor, 0 of 0 and 0: multiples of the lesser number are taken away until it has one half.
pub(crate) fn gcd(a: Magnitude, b: Magnitude) -> Magnitude
    ensures { IsGcd (natural_of a) (natural_of b) (natural_of result) }
{
    if is_less(a, b) {
        ordered_gcd(b, a)
    } else {
        ordered_gcd(a, b)
    }
}

/// The greatest common divisor of a number and one that isn't greater.
fn ordered_gcd(a: Magnitude, b: Magnitude) -> Magnitude
    requires { natural_of b ≤ natural_of a }
    ensures { IsGcd (natural_of a) (natural_of b) (natural_of result) }
{
    let mut x = a;
    let mut y = b;
    while y.high > 0 {
        let rest = reduced(x, y).1;
        if is_less(rest, y) {
            x = y;
            y = rest;
        } else {
            x = rest;
        }
    }
    half_gcd(x, y.low)
}

/// The greatest common divisor of a number and one of one half.
fn half_gcd(a: Magnitude, b: u128) -> Magnitude
    ensures { IsGcd (natural_of a) b (natural_of result) }
{
    if b == 0 {
        return a;
    }
    low_half(magnitude_gcd(b, remainder(a, b)))
}
