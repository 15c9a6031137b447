// All rows for what is moved.
ghost use Rattle.std.specs.Prelude.{None, ◌≡◌, ◌+◌, ◌≤◌, length, OnOk, OnErr};
ghost use Rattle.form_rows.specs.FormRows.{forms_terms, Grew};
ghost use Rattle.road_types.specs.Faults.{road_fault};
ghost use Rattle.road_types.specs.Accepted.{IsAccepted};
ghost use Rattle.road_types.specs.Columns.{column_count};
ghost use Rattle.road_types.specs.HaulForms.{haul_forms};
ghost use Rattle.road_types.specs.RoadPrograms.{haul_row_count};

use crate::balances::balance_rows;
use crate::blocks::{order_rows, stop_rows, transit_rows};
use crate::pits::pit_rows;
use form_rows::FormRow;
use road_types::Road;
use std::alloc::{AllocError, Global};
use term_store::Rows;

/// Puts the rows for what is moved behind the others. Room for them is asked for, and a width of at least the road's columns.
/// `AllocError` where the memory for one row in the making can't be had; the rows are then as before.
pub fn haul_rows(alloc: Global, road: &Road, rows: &mut Rows<i64>) -> Result<(), AllocError>
    requires accepted { road_fault road.now ≡ None }
    requires free { length rows.old.rows + haul_row_count road.now ≤ rows.old.room }
    requires width { column_count road.now ≤ rows.old.width }
    ensures ok { OnOk result (Grew rows.old rows.new (forms_terms road.now (haul_forms road.now))) }
    ensures err { OnErr result (rows.new ≡ rows.old) }
{
    let mut row = FormRow::new(alloc)?;
    put_rows(road, &mut row, rows);
    Ok(())
}

/// Puts the rows, made in a row that has its memory.
fn put_rows(road: &Road, row: &mut FormRow, rows: &mut Rows<i64>)
    requires accepted { IsAccepted road.now }
    requires free { length rows.old.rows + haul_row_count road.now ≤ rows.old.room }
    requires width { column_count road.now ≤ rows.old.width }
    ensures { Grew rows.old rows.new (forms_terms road.now (haul_forms road.now)) }
{
    balance_rows(road, row, rows);
    pit_rows(road, row, rows);
    transit_rows(road, row, rows);
    stop_rows(road, row, rows);
    order_rows(road, row, rows);
}
