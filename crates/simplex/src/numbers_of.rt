// The numbers that a tableau ends with.
ghost use Rattle.std.specs.Prelude.{◌≡◌, ◌+◌, ◌<◌, ◌≤◌, ℕ, [], vec_capacity, ℤ, neg_ℤ, if◌then◌else◌};
ghost use Rattle.tableau.specs.Ends.{turned_by};
ghost use Rattle.sparse_rows.specs.Lines.{IsLine, entry_of};
ghost use Rattle.simplex.specs.inside.Slacks.{AreSlacks};

use numbers::Narrow;
use sparse_rows::{entry, is_negative};
use tableau::Bound;
use term_store::Term;

/// Puts the entries of a row at the slacks into `list`, which has room for them; each turned, where that is asked.
pub(crate) fn fill_slacks<W: Narrow>(
    row: &[Term<W>],
    columns: usize,
    rows: usize,
    turns: bool,
    list: &mut Vec<i128>,
)
    requires none { list.old.items ≡ [] }
    requires room { rows ≤ vec_capacity list.old }
    requires few { columns + rows < 65536 }
    ensures { (end : ℕ) → IsLine W.meaning 0 end row.now → AreSlacks columns rows turns (entry_of W.meaning row.now) list.new.items }
{
    for k in 0..rows {
        let value = entry(row, (columns + k + 1) as u32);
        list.push_reserved(slack_value(value, turns));
    }
}

/// The number, or its opposite where it is turned.
fn slack_value<W: Narrow>(value: W, turns: bool) -> i128
    ensures { result ≡ (if turns then (neg_ℤ (W.meaning value)) else (W.meaning value)) }
{
    if turns {
        value.negated().wide()
    } else {
        value.wide()
    }
}

/// Whether the entries of an empty row are turned in its ray: from the bound that is broken, and the entry of the basic column.
pub(crate) fn ray_turns<W: Narrow>(broken: Bound, basic: W) -> bool
    ensures { (z : ℤ) → turned_by broken (W.meaning basic) z ≡ (if result then (neg_ℤ z) else z) }
{
    match broken {
        Bound::Lower => is_negative(basic),
        Bound::Upper => !is_negative(basic),
    }
}
