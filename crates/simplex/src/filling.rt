// The numbers of a program, put into the range of a type.
ghost use Rattle.std.specs.Prelude.{◌≡◌, ◌+◌, ◌-◌, ◌<◌, ◌≤◌, ℕ, [], false, length, replicate, vec_capacity, slice_index_or, IfOk, IfErr};
ghost use Rattle.algebra.specs.Numbered.{IsNumber};
ghost use Rattle.programs.specs.Programs.{column_count, row_count};
ghost use Rattle.sparse_rows.specs.Lines.{IsFilled};
ghost use Rattle.simplex.specs.Givens.{given_of, has_high_at, high_at, low_at};
ghost use Rattle.tableau.specs.Operations.{IsWideNumber};
ghost use Rattle.simplex.specs.Starts.{cost_entry, start_entry};
ghost use Rattle.simplex.specs.inside.Filled.{AreBounds, AreLines};

use numbers::Narrow;
use programs::Milp;
use sparse_rows::put;
use std::alloc::{AllocError, Global};
use term_store::{Rows, Side, Term};

/// The bounds of a column, a structural one or the slack of a row, and whether there is an upper one.
fn column_bounds(milp: &Milp, j: usize) -> (i64, i64, bool)
    requires first { 1 ≤ j }
    requires last { j ≤ column_count milp.now + row_count milp.now }
    ensures low { result.0 ≡ low_at milp.now j }
    ensures high { result.1 ≡ high_at milp.now j }
    ensures has_high { result.2 ≡ has_high_at milp.now j }
{
    let columns = milp.columns();
    if j <= columns {
        let (low, high) = milp.bounds(j);
        (low, high, true)
    } else {
        let row = milp.row(j - columns);
        (row.right(), row.right(), row.side() == Side::Equal)
    }
}

/// Puts the bounds of all columns behind place 0, which is unused. `Err` with the column of a bound that is out of range.
pub(crate) fn fill_bounds<W: Narrow>(
    milp: &Milp,
    low: &mut Vec<W>,
    high: &mut Vec<W>,
    has_high: &mut Vec<bool>,
) -> Result<(), usize>
    requires low { column_count milp.now + row_count milp.now + 1 ≤ vec_capacity low.old }
    requires high { column_count milp.now + row_count milp.now + 1 ≤ vec_capacity high.old }
    requires has_high { column_count milp.now + row_count milp.now + 1 ≤ vec_capacity has_high.old }
    ensures bounds { IfOk result (λ _. AreBounds W.meaning milp.now (column_count milp.now + row_count milp.now + 1)
        low.new.items high.new.items has_high.new.items) }
    ensures wide { IfErr result (λ j. IsWideNumber W.greatest (given_of milp.now) (j - column_count milp.now) j) }
{
    low.clear();
    high.clear();
    has_high.clear();
    low.push_reserved(W::zero());
    high.push_reserved(W::zero());
    has_high.push_reserved(false);
    let last = milp.columns() + milp.rows();
    for k in 0..last {
        let (least, greatest, is_bounded) = column_bounds(milp, k + 1);
        let Some(least) = W::of(least) else {
            return Err(k + 1);
        };
        let Some(greatest) = W::of(greatest) else {
            return Err(k + 1);
        };
        low.push_reserved(least);
        high.push_reserved(greatest);
        has_high.push_reserved(is_bounded);
    }
    Ok(())
}

/// Puts the cost row of the start in place of the terms of `line`. `Err` with the column of a cost that is out of range.
fn fill_costs<W: Narrow>(milp: &Milp, line: &mut Vec<Term<W>>) -> Result<(), usize>
    requires { column_count milp.now + 1 ≤ vec_capacity line.old }
    ensures line { IfOk result (λ _. IsFilled W.meaning line.new.items (column_count milp.now + 1) (cost_entry milp.now)) }
    ensures wide { IfErr result (λ j. IsWideNumber W.greatest (given_of milp.now) 0 j) }
    ensures capacity { vec_capacity line.new ≡ vec_capacity line.old }
{
    line.clear();
    line.push_reserved(Term {
        column: 0,
        value: W::one(),
    });
    let columns = milp.columns();
    for k in 0..columns {
        let Some(cost) = W::of(milp.cost(k + 1)) else {
            return Err(k + 1);
        };
        put(line, (k + 1) as u32, cost);
    }
    Ok(())
}

/// Puts row `i` of the start in place of the terms of `line`. `Err` with the column of a coefficient that is out of range.
fn fill_row<W: Narrow>(milp: &Milp, i: usize, line: &mut Vec<Term<W>>) -> Result<(), usize>
    requires row { IsNumber i (row_count milp.now) }
    requires room { vec_capacity line.old ≡ column_count milp.now + row_count milp.now + 1 }
    ensures line { IfOk result (λ _. IsFilled W.meaning line.new.items (column_count milp.now + row_count milp.now + 1) (start_entry milp.now i)) }
    ensures wide { IfErr result (λ j. IsWideNumber W.greatest (given_of milp.now) i j) }
    ensures capacity { vec_capacity line.new ≡ vec_capacity line.old }
{
    line.clear();
    let columns = milp.columns();
    for term in milp.row(i).terms() {
        let Some(value) = W::of(term.value) else {
            return Err(term.column as usize);
        };
        line.push_reserved(Term {
            column: term.column,
            value,
        });
    }
    line.push_reserved(Term {
        column: (columns + i) as u32,
        value: W::one().negated(),
    });
    Ok(())
}

/// Puts the rows of the start into a store, the cost row first, and as many empty rows behind them. `Err` with the row and
/// the column of a number that is out of range.
pub(crate) fn fill_lines<W: Narrow>(
    milp: &Milp,
    line: &mut Vec<Term<W>>,
    lines: &mut Rows<W>,
) -> Result<(), (usize, usize)>
    requires line { vec_capacity line.old ≡ column_count milp.now + row_count milp.now + 1 }
    requires none { lines.old.rows ≡ [] }
    requires room { lines.old.room ≡ row_count milp.now + 1 + (row_count milp.now + 1) }
    requires width { lines.old.width ≡ column_count milp.now + row_count milp.now + 1 }
    ensures lines { IfOk result (λ _. AreLines W.meaning milp.now (row_count milp.now) lines.new.rows) }
    ensures count { IfOk result (λ _. length lines.new.rows ≡ row_count milp.now + 1 + (row_count milp.now + 1)) }
    ensures width { lines.new.width ≡ lines.old.width }
    ensures wide { IfErr result (λ (i, j). IsWideNumber W.greatest (given_of milp.now) i j) }
    ensures row { IfErr result (λ (i, j). i ≤ row_count milp.now) }
{
    match fill_costs(milp, line) {
        Ok(()) => lines.push_row(line.as_slice()),
        Err(column) => return Err((0, column)),
    }
    let rows = milp.rows();
    for k in 0..rows {
        match fill_row(milp, k + 1, line) {
            Ok(()) => lines.push_row(line.as_slice()),
            Err(column) => return Err((k + 1, column)),
        }
    }
    line.clear();
    for _spare in 0..rows + 1 {
        lines.push_row(line.as_slice());
    }
    Ok(())
}

/// Takes room for the numbers of a program and puts them there: the bounds of all columns, and the rows of the start with as
/// many empty ones behind them. `Err` inside with the row and the column of a number that is out of range. `AllocError`
/// where that memory can't be had.
pub(crate) fn fill_numbers<W: Narrow>(
    alloc: Global,
    milp: &Milp,
    low: &mut Vec<W>,
    high: &mut Vec<W>,
    has_high: &mut Vec<bool>,
    lines: &mut Rows<W>,
) -> Result<Result<(), (usize, usize)>, AllocError>
    requires empty { (low.old.items ≡ []) × ((high.old.items ≡ []) × (has_high.old.items ≡ [])) }
    requires none { lines.old.rows ≡ [] }
    requires room { lines.old.room ≡ row_count milp.now + 1 + (row_count milp.now + 1) }
    requires width { lines.old.width ≡ column_count milp.now + row_count milp.now + 1 }
    ensures bounds { IfOk result (λ r. IfOk r (λ _. AreBounds W.meaning milp.now (column_count milp.now + row_count milp.now + 1)
        low.new.items high.new.items has_high.new.items)) }
    ensures lines { IfOk result (λ r. IfOk r (λ _. AreLines W.meaning milp.now (row_count milp.now) lines.new.rows)) }
    ensures count { IfOk result (λ r. IfOk r (λ _. length lines.new.rows ≡ row_count milp.now + 1 + (row_count milp.now + 1))) }
    ensures width { IfOk result (λ r. IfOk r (λ _. lines.new.width ≡ lines.old.width)) }
    ensures wide { IfOk result (λ r. IfErr r (λ (i, j). IsWideNumber W.greatest (given_of milp.now) i j)) }
    ensures row { IfOk result (λ r. IfErr r (λ (i, j). i ≤ row_count milp.now)) }
{
    let columns = milp.columns();
    let end = columns + milp.rows() + 1;
    low.reserve_exact(end)?;
    high.reserve_exact(end)?;
    has_high.reserve_exact(end)?;
    let mut line = Vec::with_capacity(alloc, end)?;
    match fill_bounds(milp, low, high, has_high) {
        Ok(()) => Ok(fill_lines(milp, &mut line, lines)),
        Err(column) => Ok(Err((row_of_bound(column, columns), column))),
    }
}

/// The basis of the start: each row's slack behind place 0, which is unused.
pub(crate) fn slack_basis(
    alloc: Global,
    columns: usize,
    rows: usize,
) -> Result<Vec<u32>, AllocError>
    requires { columns + rows < 65536 }
    ensures count { IfOk result (λ basis. length basis.items ≡ rows + 1) }
    ensures slacks { IfOk result (λ basis. (i : ℕ) → 1 ≤ i → i ≤ rows → slice_index_or basis.items i 0 ≡ columns + i) }
{
    let mut basis = Vec::with_capacity(alloc, rows + 1)?;
    basis.push_reserved(0);
    for k in 0..rows {
        basis.push_reserved((columns + k + 1) as u32);
    }
    Ok(basis)
}

/// The row that a column's bound belongs to: that whose slack it is, or 0 for a structural column.
pub(crate) fn row_of_bound(column: usize, columns: usize) -> usize
    ensures { result ≡ column - columns }
{
    column.saturating_sub(columns)
}

/// That many tests, all of them false.
pub(crate) fn all_false(alloc: Global, count: usize) -> Result<Vec<bool>, AllocError>
    ensures { IfOk result (λ tests. tests.items ≡ replicate count false) }
{
    let mut tests = Vec::new(alloc);
    tests.resize(count, false)?;
    Ok(tests)
}
