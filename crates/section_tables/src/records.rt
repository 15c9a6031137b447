// Records: the first one, which names the columns, and those of sections.
ghost use Rattle.std.specs.Prelude.{◌≡◌, length, ◌==◌, IfOk};
ghost use Rattle.csv.specs.Records.{fields_of, field_at};
ghost use Rattle.road_types.specs.RecordFaults.{is_station, is_height, is_cost, is_cap};
ghost use Rattle.section_tables.specs.Steps.{MayAnswer};
ghost use Rattle.section_tables.specs.Cells.{number_in, slabs_of};
ghost use Rattle.section_tables.specs.inside.Prices.{prices_of, ArePrices};
ghost use Rattle.section_tables.specs.Tables.{cell_at, section_of, has_name, names_places, names_prices, is_header, cell_count};

use crate::TableErr;
use crate::cells::{cap, cost, height, slabs, station};
use csv::ByteRecord;
use road_types::{Listed, Section, Slab};
use std::alloc::Global;

/// The number of a table's columns.
const COLUMNS: usize = 8;

fn has_all_columns(row: &ByteRecord) -> bool
    ensures { result ≡ (length (fields_of row.now) == cell_count) }
{
    row.len() == COLUMNS
}

fn is_named(row: &ByteRecord, place: usize, name: &str) -> bool
    ensures { result ≡ has_name (field_at (fields_of row.now) place) name.now }
{
    match row.get(place) {
        Some(cell) => cell == name.as_bytes(),
        None => false,
    }
}

fn names_places(row: &ByteRecord) -> bool
    ensures { result ≡ names_places (fields_of row.now) }
{
    is_named(row, 0, "station")
        && is_named(row, 1, "ground")
        && is_named(row, 2, "cut")
        && is_named(row, 3, "fill")
}

fn names_prices(row: &ByteRecord) -> bool
    ensures { result ≡ names_prices (fields_of row.now) }
{
    is_named(row, 4, "cut_cost")
        && is_named(row, 5, "fill_cost")
        && is_named(row, 6, "cut_max")
        && is_named(row, 7, "fill_max")
}

/// Whether a record names the columns in their order.
#[tactic(auto, unfolding(crate::specs::Tables::is_header))]
pub(crate) fn is_header(row: &ByteRecord) -> bool
    ensures { result ≡ is_header (fields_of row.now) }
{
    has_all_columns(row) && names_places(row) && names_prices(row)
}

#[tactic(auto, unfolding(crate::specs::Tables::cell_at))]
fn station_at(row: &ByteRecord, place: usize) -> Result<i64, TableErr>
    ensures { MayAnswer result (cell_at (number_in is_station) place (fields_of row.now)) }
{
    match row.get(place) {
        Some(cell) => station(cell),
        None => Err(TableErr::Refused),
    }
}

#[tactic(auto, unfolding(crate::specs::Tables::cell_at))]
fn height_at(row: &ByteRecord, place: usize) -> Result<i64, TableErr>
    ensures { MayAnswer result (cell_at (number_in is_height) place (fields_of row.now)) }
{
    match row.get(place) {
        Some(cell) => height(cell),
        None => Err(TableErr::Refused),
    }
}

#[tactic(auto, unfolding(crate::specs::Tables::cell_at))]
fn slabs_at(alloc: Global, row: &ByteRecord, place: usize) -> Result<Listed<Slab>, TableErr>
    ensures { MayAnswer result (cell_at slabs_of place (fields_of row.now)) }
{
    match row.get(place) {
        Some(cell) => slabs(alloc, cell),
        None => Err(TableErr::Refused),
    }
}

#[tactic(auto, unfolding(crate::specs::Tables::cell_at))]
fn cost_at(row: &ByteRecord, place: usize) -> Result<i64, TableErr>
    ensures { MayAnswer result (cell_at (number_in is_cost) place (fields_of row.now)) }
{
    match row.get(place) {
        Some(cell) => cost(cell),
        None => Err(TableErr::Refused),
    }
}

#[tactic(auto, unfolding(crate::specs::Tables::cell_at))]
fn cap_at(row: &ByteRecord, place: usize) -> Result<i64, TableErr>
    ensures { MayAnswer result (cell_at (number_in is_cap) place (fields_of row.now)) }
{
    match row.get(place) {
        Some(cell) => cap(cell),
        None => Err(TableErr::Refused),
    }
}

/// The costs of cut and of fill, and the caps of both.
#[tactic(auto, unfolding(crate::specs::inside::Prices::prices_of))]
fn prices(row: &ByteRecord) -> Result<(i64, i64, i64, i64), TableErr>
    ensures found { IfOk result (ArePrices (fields_of row.now)) }
    ensures due { MayAnswer result (prices_of (fields_of row.now)) }
{
    let cut_cost = cost_at(row, 4)?;
    let fill_cost = cost_at(row, 5)?;
    let cut_max = cap_at(row, 6)?;
    let fill_max = cap_at(row, 7)?;
    Ok((cut_cost, fill_cost, cut_max, fill_max))
}

/// The section of a record.
#[tactic(auto, unfolding(crate::specs::Tables::section_of))]
pub(crate) fn section(alloc: Global, row: &ByteRecord) -> Result<Section, TableErr>
    ensures { MayAnswer result (section_of (fields_of row.now)) }
{
    if !has_all_columns(row) {
        return Err(TableErr::Refused);
    }
    let station = station_at(row, 0)?;
    let ground = height_at(row, 1)?;
    let cut = slabs_at(alloc, row, 2)?;
    let fill = match slabs_at(alloc, row, 3) {
        Ok(fill) => fill,
        Err(error) => {
            drop(cut);
            return Err(error);
        }
    };
    let (cut_cost, fill_cost, cut_max, fill_max) = match prices(row) {
        Ok(prices) => prices,
        Err(error) => {
            drop(cut);
            drop(fill);
            return Err(error);
        }
    };
    Ok(Section {
        station,
        ground,
        cut,
        fill,
        cut_cost,
        fill_cost,
        cut_max,
        fill_max,
    })
}
