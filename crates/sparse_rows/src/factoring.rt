// The factors by which a row and the pivot row are multiplied.
ghost use Rattle.std.specs.Prelude.{◌≢◌, pos};
ghost use Rattle.sparse_rows.specs.Cells.{AreFactors};

use crate::cells::is_negative;
use crate::dividing::part;
use numbers::Whole;

/// The magnitude of the pivot and the entry turned by the pivot's sign, both divided by their greatest common divisor.
pub fn factors<W: Whole>(pivot: W, entry: W) -> (W, W)
    requires { W.meaning pivot ≢ pos 0 }
    ensures { AreFactors (W.meaning pivot) (W.meaning entry) (W.meaning result.0) (W.meaning result.1) }
{
    let divisor = pivot.gcd(entry);
    let keep = part(pivot, divisor);
    let take = part(entry, divisor);
    if is_negative(pivot) {
        (keep.negated(), take.negated())
    } else {
        (keep, take)
    }
}
