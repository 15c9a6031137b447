// What a tableau in memory has, row by row.
ghost use Rattle.std.specs.Prelude.{◌≡◌, ◌≤◌, [], slice_index_or};
ghost use Rattle.programs.specs.Programs.{column_count, row_count};
ghost use Rattle.simplex.specs.States.{KeepsLaws};

use crate::table::Tableau;
use numbers::Narrow;
use term_store::Term;

impl<'a, W: Narrow> Tableau<'a, W> {
    /// The number of structural columns.
    pub(crate) fn columns(&self) -> usize
        ensures { result ≡ column_count self.now.program }
    {
        self.milp.columns()
    }

    /// The number of rows but the cost row.
    pub(crate) fn rows(&self) -> usize
        ensures count { result ≡ row_count self.now.program }
        ensures laws { KeepsLaws W.meaning self.now }
    {
        self.milp.rows()
    }

    /// The terms of a row; the cost row has the number 0.
    pub(crate) fn line(&self, row: usize) -> &[Term<W>]
        requires { row ≤ row_count self.now.program }
        ensures value { result.now ≡ slice_index_or self.now.lines row [] }
        ensures laws { KeepsLaws W.meaning self.now }
    {
        self.lines.row(row)
    }

    /// The basic column of a row, which is numbered from 1.
    pub(crate) fn basic(&self, row: usize) -> u32
        requires { row ≤ row_count self.now.program }
        ensures { result ≡ slice_index_or self.now.basis row 0 }
    {
        let basis = self.basis.as_slice();
        basis[row]
    }
}
