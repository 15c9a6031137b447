// An entry of a row.
ghost use Rattle.std.specs.Prelude.{◌≡◌, ℕ};
ghost use Rattle.sparse_rows.specs.Lines.{IsLine, entry_of};

use numbers::Whole;
use term_store::Term;

/// The entry of a row at a column, 0 where it has none.
pub fn entry<W: Whole>(row: &[Term<W>], column: u32) -> W
    ensures { (end : ℕ) → IsLine W.meaning 0 end row.now → W.meaning result ≡ entry_of W.meaning row.now column }
{
    for term in row {
        if term.column >= column {
            if term.column == column {
                return term.value;
            }
            return W::zero();
        }
    }
    W::zero()
}
