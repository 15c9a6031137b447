// Which row is kept apart from the others, so that it can be lent beside them.
ghost use Rattle.std.specs.Prelude.{◌≡◌, ◌<◌, ◌≤◌, ℕ, length, slice_set};
ghost use Rattle.term_store.specs.inside.Lending.{AllHaveRoom};

use crate::row::Row;
use std::mem;

/// Puts the row kept apart back at its place, and keeps row `k` apart in its stead; no other row moves.
pub(crate) fn keep_apart<V>(rows: &mut Vec<Row<V>>, kept: &mut Row<V>, place: &mut usize, k: usize)
    requires place { place.old < length rows.old.items }
    requires row { k < length rows.old.items }
    ensures place { place.new ≡ k }
    ensures in_order { slice_set rows.new.items k kept.new
        ≡ slice_set rows.old.items place.old kept.old }
    ensures len { length rows.new.items ≡ length rows.old.items }
    ensures rooms { (width : ℕ) → width ≤ kept.old.room → AllHaveRoom width rows.old.items
        → (width ≤ kept.new.room) × AllHaveRoom width rows.new.items }
{
    if k != *place {
        mem::swap(&mut rows[*place], kept);
        mem::swap(&mut rows[k], kept);
        *place = k;
    }
}
