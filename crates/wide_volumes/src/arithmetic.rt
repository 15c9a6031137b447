// Arithmetic on numbers in two halves whose results are known to fit.
ghost use Rattle.std.specs.Prelude.{◌≡◌, ◌^◌, ◌<◌, pos, ◌+ℤ◌, ◌-ℤ◌, ◌*ℤ◌, unsigned_abs};
ghost use Rattle.std.specs.Int.{int_min, int_max};
ghost use Rattle.wide_products.specs.Naturals.{whole_of};

use std::cmp::Ordering;
use wide_products::Wide;

/// The sum.
pub(crate) fn plus(a: Wide, b: Wide) -> Wide
    requires { unsigned_abs (whole_of a +ℤ whole_of b) < 2 ^ 256 }
    ensures { whole_of result ≡ whole_of a +ℤ whole_of b }
{
    match a.plus(b) {
        Some(sum) => sum,
        None => unreachable!(),
    }
}

/// The difference.
pub(crate) fn minus(a: Wide, b: Wide) -> Wide
    requires { unsigned_abs (whole_of a -ℤ whole_of b) < 2 ^ 256 }
    ensures { whole_of result ≡ whole_of a -ℤ whole_of b }
{
    match a.minus(b) {
        Some(difference) => difference,
        None => unreachable!(),
    }
}

/// The product.
pub(crate) fn times(a: Wide, b: Wide) -> Wide
    requires { unsigned_abs (whole_of a *ℤ whole_of b) < 2 ^ 256 }
    ensures { whole_of result ≡ whole_of a *ℤ whole_of b }
{
    match a.times(b) {
        Some(product) => product,
        None => unreachable!(),
    }
}

/// The lesser number.
pub(crate) fn least(a: Wide, b: Wide) -> Wide
    ensures { whole_of result ≡ int_min (whole_of a) (whole_of b) }
{
    match b.order(a) {
        Ordering::Less => b,
        _ => a,
    }
}

/// The number, 0 where it is negative.
pub(crate) fn from_zero(a: Wide) -> Wide
    ensures { whole_of result ≡ int_max (whole_of a) (pos 0) }
{
    match Wide::of(0).order(a) {
        Ordering::Less => a,
        _ => Wide::of(0),
    }
}
