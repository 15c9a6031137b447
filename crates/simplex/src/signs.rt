// Signs and magnitudes of numbers, and which bound signs tell.
ghost use Rattle.std.specs.Prelude.{◌≡◌, ◌↔◌, ℤ, pos, ◌<ℤ◌, IsTrue, unsigned_abs};
ghost use Rattle.tableau.specs.Signs.{IsOppositeSign, IsSameSign};
ghost use Rattle.tableau.specs.Exchanges.{IsToward};
ghost use Rattle.tableau.specs.declared.bound.Bound.{Bound};
ghost use Rattle.tableau.specs.declared.bound.Bound.TheVariants.{Upper};

use numbers::{Narrow, Whole};
use sparse_rows::is_negative;
use std::cmp::Ordering;

/// Whether the number is above 0.
pub(crate) fn is_positive<T: Whole>(value: T) -> bool
    ensures { IsTrue result ↔ (pos 0 <ℤ T.meaning value) }
{
    value.sign() == Ordering::Greater
}

/// Whether one number is above 0 and the other below.
pub(crate) fn is_opposite_sign<A: Whole, B: Whole>(a: A, b: B) -> bool
    ensures { IsTrue result ↔ IsOppositeSign (A.meaning a) (B.meaning b) }
{
    if is_negative(a) {
        is_positive(b)
    } else {
        is_positive(a) && is_negative(b)
    }
}

/// Whether both numbers are above 0, or both below.
pub(crate) fn is_same_sign<A: Whole, B: Whole>(a: A, b: B) -> bool
    ensures { IsTrue result ↔ IsSameSign (A.meaning a) (B.meaning b) }
{
    if is_negative(a) {
        is_negative(b)
    } else {
        is_positive(a) && is_positive(b)
    }
}

/// Whether an eligible column is eligible because the upper bound is broken: from the entry of the basic column, its own
/// entry, and whether it stands at its upper bound.
pub(crate) fn breaks_upper<W: Narrow>(basic: W, entry: W, at_high: bool) -> bool
    ensures { (broken : Bound) → IsToward broken at_high (W.meaning entry) (W.meaning basic) → (IsTrue result ↔ (broken ≡ Upper)) }
{
    if at_high {
        is_opposite_sign(basic, entry)
    } else {
        is_same_sign(basic, entry)
    }
}

/// The magnitude of a number.
pub(crate) fn magnitude<W: Whole>(v: W) -> W
    ensures { W.meaning result ≡ pos (unsigned_abs (W.meaning v)) }
{
    if is_negative(v) { v.negated() } else { v }
}
