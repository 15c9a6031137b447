// What is printed of a box and of its program.
ghost use Rattle.std.specs.Prelude.{◌≡◌, None};
ghost use Rattle.algebra.specs.Numbered.{IsNumber};
ghost use Rattle.programs.specs.Programs.{column_count, row_count};
ghost use Rattle.road_types.specs.Faults.{road_fault};
ghost use Rattle.milp_builder.specs.Boxes.{IsBoxOf};

use milp_builder::{BoxRange, Milp, build};
use road_types::Road;
use std::alloc::{AllocError, Global};
use term_store::Side;

/// The ranges of a box.
pub(crate) fn ranges_text(alloc: Global, range: &BoxRange) -> Result<String, AllocError> {
    let (opens, heights) = (range.opens.as_slice(), range.heights.as_slice());
    format!(in alloc; "opens {opens:?} heights {heights:?}")
}

/// The counts of a box's program, and the road's weight.
pub(crate) fn counts_text(
    alloc: Global,
    road: &Road,
    range: &BoxRange,
) -> Result<String, AllocError>
    requires accepted { road_fault road.now ≡ None }
    requires fits { IsBoxOf road.now range.now }
{
    let milp = build(alloc, road, range)?;
    counts_of(alloc, &milp, road)
}

/// The counts, the bounds and the cost of each column, and the rows.
pub(crate) fn rows_text(alloc: Global, road: &Road, range: &BoxRange) -> Result<String, AllocError>
    requires accepted { road_fault road.now ≡ None }
    requires fits { IsBoxOf road.now range.now }
{
    let milp = build(alloc, road, range)?;
    let mut text = counts_of(alloc, &milp, road)?;
    push_columns(alloc, &milp, &mut text)?;
    push_rows(alloc, &milp, &mut text)?;
    Ok(text)
}

fn counts_of(alloc: Global, milp: &Milp, road: &Road) -> Result<String, AllocError>
    requires { road_fault road.now ≡ None }
{
    let (rows, columns, weight) = (milp.rows(), milp.columns(), road_weight(road));
    format!(in alloc; "rows {rows} columns {columns} weight {weight}")
}

/// The weight of a road.
fn road_weight(road: &Road) -> i128
    requires { road_fault road.now ≡ None }
{
    road.weight()
}

fn push_columns(alloc: Global, milp: &Milp, text: &mut String) -> Result<(), AllocError> {
    for before in 0..milp.columns() {
        let column = column_text(alloc, milp, before + 1)?;
        text.push_str(column.as_str())?;
    }
    Ok(())
}

fn push_rows(alloc: Global, milp: &Milp, text: &mut String) -> Result<(), AllocError> {
    for before in 0..milp.rows() {
        let row = row_text(alloc, milp, before + 1)?;
        text.push_str(row.as_str())?;
    }
    Ok(())
}

/// A line with the bounds and the cost of a column.
fn column_text(alloc: Global, milp: &Milp, number: usize) -> Result<String, AllocError>
    requires { IsNumber number (column_count milp.now) }
{
    let (low, high) = milp.bounds(number);
    let cost = milp.cost(number);
    format!(in alloc; "\ncolumn {low} {high} {cost}")
}

/// A line with a row: what its sum is asked to be, and its terms.
fn row_text(alloc: Global, milp: &Milp, number: usize) -> Result<String, AllocError>
    requires { IsNumber number (row_count milp.now) }
{
    let row = milp.row(number);
    let side = match row.side() {
        Side::Equal => "=",
        Side::AtLeast => ">=",
    };
    let right = row.right();
    let mut text = format!(in alloc; "\nrow {side} {right}")?;
    for term in row.terms() {
        let (column, value) = (term.column, term.value);
        let shown = format!(in alloc; " {column}:{value}")?;
        text.push_str(shown.as_str())?;
    }
    Ok(text)
}
