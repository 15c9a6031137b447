// Common denominators of basic values, and coordinates over them.
ghost use Rattle.std.specs.Prelude.{◌≡◌, ◌≢◌, ◌<◌, ◌≤◌, ℤ, pos, ◌+ℤ◌, ◌*ℤ◌, ◌<ℤ◌, IfSome, IfNone, unsigned_abs};
ghost use Rattle.numbers.specs.Divisors.{Divides};
ghost use Rattle.simplex.specs.inside.Joins.{IsJoined};

use crate::signs::magnitude;
use numbers::{Narrow, Whole};
use sparse_rows::widened;

/// The least multiple of a denominator by which `rest` over `pivot` is whole. `None` exactly where it is out of range.
pub(crate) fn joined<W: Narrow, T: Whole>(den: T, pivot: W, rest: T) -> Option<T>
    requires wider { W.greatest ≤ T.greatest }
    requires positive { pos 0 <ℤ T.meaning den }
    requires nonzero { W.meaning pivot ≢ pos 0 }
    ensures some { IfSome result (λ d. IsJoined (T.meaning den) (W.meaning pivot) (T.meaning rest) (T.meaning d)) }
    ensures none { IfNone result ((z : ℤ) × IsJoined (T.meaning den) (W.meaning pivot) (T.meaning rest) z × (T.greatest < unsigned_abs z)) }
{
    let wide: T = widened(pivot);
    let part = magnitude(wide.exact_part(wide.gcd(rest)));
    let factor = part.exact_part(den.gcd(part));
    den.times(factor)
}

/// The numerator over `den` of the number that makes `pivot` times it and `rest` 0; `den` is asked to clear it. `None` exactly
/// where it is out of range.
pub(crate) fn cleared<W: Narrow, T: Whole>(den: T, pivot: W, rest: T) -> Option<T>
    requires wider { W.greatest ≤ T.greatest }
    requires nonzero { W.meaning pivot ≢ pos 0 }
    requires clears { Divides (W.meaning pivot) (T.meaning den *ℤ T.meaning rest) }
    ensures some { IfSome result (λ x. W.meaning pivot *ℤ T.meaning x +ℤ T.meaning den *ℤ T.meaning rest ≡ pos 0) }
    ensures none { IfNone result ((x : ℤ) → W.meaning pivot *ℤ x +ℤ T.meaning den *ℤ T.meaning rest ≡ pos 0 → T.greatest < unsigned_abs x) }
{
    let wide: T = widened(pivot);
    let divisor = wide.gcd(rest);
    let part = wide.exact_part(divisor);
    let factor = den.exact_part(part);
    let Some(numerator) = rest.exact_part(divisor).times(factor) else {
        return None;
    };
    Some(numerator.negated())
}
