// A tableau in memory, and its exchanges.
ghost use Rattle.std.specs.Prelude.{◌≡◌, ◌↔◌, ◌<◌, ◌≤◌, ℕ, ℤ, length, take, IfOk, IfErr, IfSome, IsSome};
ghost use Rattle.programs.specs.Programs.{row_count};
ghost use Rattle.tableau.specs.Tableaux.{IsStart};
ghost use Rattle.tableau.specs.Programs.{HasSlacks};
ghost use Rattle.tableau.specs.Exchanges.{IsGood, IsResult};
ghost use Rattle.tableau.specs.Operations.{IsOutOfRange, IsWideNumber};
ghost use Rattle.tableau.specs.declared.op.Op.TheVariants.{Cell};
ghost use Rattle.tableau.specs.Laws.{HasLaws, MakesRowsZero};
ghost use Rattle.simplex.specs.Givens.{given_of};
ghost use Rattle.simplex.specs.States.{KeepsLaws, State, tableau_of};
ghost use Rattle.simplex.specs.Starts.{IsInRange};
ghost use Rattle.simplex.specs.Refusals.{IsCellOf};

use crate::cells::Cells;
use crate::filling::{all_false, fill_numbers, slack_basis};
use crate::lp::Lp;
use crate::rows::exchange_rows;
use numbers::Narrow;
use programs::Milp;
use std::alloc::{AllocError, Global};
use std::marker::Model;
use tableau::{Exchange, Op};
use term_store::Rows;

/// A tableau of the dual simplex that good exchanges have reached, with numbers of the range of W.
/// Contracts see its program, the terms of its rows, its basis and where columns stand.
#[derive(Drop)]
pub struct Tableau<'a, W: Narrow> {
    pub(crate) milp: &'a Milp,
    // The cost row, the rows of the program, and as many spare rows.
    pub(crate) lines: Rows<W>,
    marks: Vec<bool>,
    cells: Cells,
    pub(crate) low: Vec<W>,
    pub(crate) high: Vec<W>,
    pub(crate) has_high: Vec<bool>,
    pub(crate) basis: Vec<u32>,
    pub(crate) at_high: Vec<bool>,
}

impl<'a, W: Narrow> Model for Tableau<'a, W> {
    ghost use Rattle.std.specs.Prelude.{◌+◌, take, length};
    ghost use Rattle.programs.specs.Programs.{row_count};
    ghost use Rattle.simplex.specs.States.{State};
    ghost use Rattle.simplex.specs.inside.Kept.{IsKept};

    ghost Value = { State W };

    ghost view = { λ t. record {
      program = t.milp.now;
      lines = take (row_count t.milp.now + 1) t.lines.rows;
      low = t.low.items;
      high = t.high.items;
      has_high = t.has_high.items;
      basis = t.basis.items;
      at_high = t.at_high.items;
    } };

    ghost invariant = { λ t. IsKept W.meaning (record {
      program = t.milp.now;
      lines = take (row_count t.milp.now + 1) t.lines.rows;
      low = t.low.items;
      high = t.high.items;
      has_high = t.has_high.items;
      basis = t.basis.items;
      at_high = t.at_high.items;
    }) t.lines.rows (length t.marks.items) t.lines.width t.cells };
}

impl<'a, W: Narrow> Tableau<'a, W> {
    /// The tableau at the start, or `None` exactly where an entry, cost or bound of the program is out of W's range.
    /// `AllocError` where its memory can't be had.
    pub fn start(alloc: Global, lp: &Lp<'a>) -> Result<Option<Tableau<'a, W>>, AllocError>
        ensures program { IfOk result (λ o. IfSome o (λ s. s.program ≡ lp.now.milp.now)) }
        ensures start { IfOk result (λ o. IfSome o (λ s. IsStart (given_of lp.now.milp.now) (tableau_of W.meaning s))) }
        ensures laws { IfOk result (λ o. IfSome o (λ s. KeepsLaws W.meaning s)) }
        ensures in_range { IfOk result (λ o. IsSome o ↔ IsInRange W.greatest (given_of lp.now.milp.now)) }
    {
        match Tableau::begin(alloc, lp)? {
            Ok(tableau) => Ok(Some(tableau)),
            Err(_) => Ok(None),
        }
    }

    /// The tableau at the start, or the row and the column of a number of the program that is out of range.
    pub(crate) fn begin(
        alloc: Global,
        lp: &Lp<'a>,
    ) -> Result<Result<Tableau<'a, W>, (usize, usize)>, AllocError>
        ensures program { IfOk result (λ r. IfOk r (λ s. s.program ≡ lp.now.milp.now)) }
        ensures start { IfOk result (λ r. IfOk r (λ s. IsStart (given_of lp.now.milp.now) (tableau_of W.meaning s))) }
        ensures reached { IfOk result (λ r. IfOk r (λ s. KeepsLaws W.meaning s)) }
        ensures in_range { IfOk result (λ r. IfOk r (λ _. IsInRange W.greatest (given_of lp.now.milp.now))) }
        ensures wide { IfOk result (λ r. IfErr r (λ (i, j). IsWideNumber W.greatest (given_of lp.now.milp.now) i j)) }
        ensures row { IfOk result (λ r. IfErr r (λ (i, j). i ≤ row_count lp.now.milp.now)) }
    {
        let milp = lp.milp;
        let columns = milp.columns();
        let rows = milp.rows();
        let count = rows + 1;
        let end = columns + count;
        let marks = all_false(alloc, count)?;
        let at_high = all_false(alloc, end)?;
        let basis = slack_basis(alloc, columns, rows)?;
        let cells = Cells::new(alloc, end)?;
        let mut lines = Rows::new(alloc, count + count, end)?;
        let mut low = Vec::new(alloc);
        let mut high = Vec::new(alloc);
        let mut has_high = Vec::new(alloc);
        let filled = fill_numbers(alloc, milp, &mut low, &mut high, &mut has_high, &mut lines)?;
        match filled {
            Ok(()) => Ok(Ok(Tableau {
                milp,
                lines,
                marks,
                cells,
                low,
                high,
                has_high,
                basis,
                at_high,
            })),
            Err(place) => Ok(Err(place)),
        }
    }

    /// Makes a good exchange; it takes no memory. `Err` with a cell of the exchange whose exact value is out of W's range; the
    /// tableau is then as before.
    pub fn exchange(&mut self, swap: Exchange) -> Result<(), Op>
        requires { IsGood (tableau_of W.meaning self.old) swap }
        ensures program { self.new.program ≡ self.old.program }
        ensures result { IfOk result (λ _. IsResult (tableau_of W.meaning self.old) swap (tableau_of W.meaning self.new)) }
        ensures same { IfErr result (λ _. self.new ≡ self.old) }
        ensures cell { IfErr result (λ op. IsCellOf swap op) }
        ensures wide { IfErr result (λ op. IsOutOfRange W.greatest (tableau_of W.meaning self.old) op) }
        ensures laws { HasLaws (tableau_of W.meaning self.new) }
        ensures points { (y : ℕ → ℤ) → MakesRowsZero (tableau_of W.meaning self.new) y ↔ HasSlacks (given_of self.new.program) y }
    {
        match self.change(swap) {
            Ok(()) => Ok(()),
            Err((row, col)) => Err(cell_of(swap, row, col)),
        }
    }

    /// Makes a good exchange. `Err` with the row and the column of a cell that is out of range; the tableau is then as before.
    fn change(&mut self, swap: Exchange) -> Result<(), (usize, u32)>
        requires { IsGood (tableau_of W.meaning self.old) swap }
        ensures program { self.new.program ≡ self.old.program }
        ensures result { IfOk result (λ _. IsResult (tableau_of W.meaning self.old) swap (tableau_of W.meaning self.new)) }
        ensures same { IfErr result (λ _. self.new ≡ self.old) }
        ensures wide { IfErr result (λ (row, col). IsOutOfRange W.greatest (tableau_of W.meaning self.old) (Cell swap row col)) }
        ensures row { IfErr result (λ (row, col). row < 65536) }
        ensures col { IfErr result (λ (row, col). col < 65536) }
        ensures laws { HasLaws (tableau_of W.meaning self.new) }
        ensures points { (y : ℕ → ℤ) → MakesRowsZero (tableau_of W.meaning self.new) y ↔ HasSlacks (given_of self.new.program) y }
    {
        let columns = self.milp.columns();
        match exchange_rows(
            &mut self.lines,
            &mut self.marks,
            &mut self.cells,
            &mut self.basis,
            &mut self.at_high,
            columns,
            swap.row as usize,
            swap.col as u32,
        ) {
            Ok(()) => {}
            Err((row, col)) => return Err((row, col)),
        }
        Ok(())
    }
}

/// The operation that names a cell of an exchange.
fn cell_of(swap: Exchange, row: usize, col: u32) -> Op
    requires row { row < 65536 }
    requires col { col < 65536 }
    ensures { result ≡ Cell swap row col }
{
    Op::Cell {
        swap,
        row: row as u16,
        col: col as u16,
    }
}
