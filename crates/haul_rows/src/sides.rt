// What the rows for what is moved ask of the sums of their terms.
ghost use Rattle.std.specs.Prelude.{None, ◌≡◌, ◌+◌, ◌*◌, ◌-◌, ◌<◌, ◌≤◌, ◌++◌, pos, ◌≤ℤ◌};
ghost use Rattle.algebra.specs.Numbered.{numbered, IsNumber};
ghost use Rattle.form_rows.specs.FormRows.{asked};
ghost use Rattle.road_types.specs.Faults.{road_fault};
ghost use Rattle.road_types.specs.Accepted.{IsAccepted};
ghost use Rattle.road_types.specs.Forms.{no_form};
ghost use Rattle.road_types.specs.HaulForms.{balance_forms, pit_forms, transit_forms, stop_forms, order_forms, haul_forms};
ghost use Rattle.road_types.specs.Road.{section, pit, block as block_of, section_count, pit_count, block_count};
ghost use Rattle.road_types.specs.RoadPrograms.{section_row_count, haul_row_count, row_count};

use crate::blocks::opposite;
use road_types::Road;
use term_store::Side;

/// What a row for what is moved asks of the sum of its terms: the side and the right side. The row's number counts from 1 through
/// all rows of the road, those for heights and volumes first.
pub fn haul_side(road: &Road, row: usize) -> (Side, i64)
    requires accepted { road_fault road.now ≡ None }
    requires row { row ≤ row_count road.now }
    requires behind { section_row_count road.now < row }
    ensures { result ≡ asked (numbered no_form (haul_forms road.now) (row - section_row_count road.now)) }
{
    first_side(road, row - section_row_count(road))
}

/// The number of rows for heights and volumes.
fn section_row_count(road: &Road) -> usize
    requires { IsAccepted road.now }
    ensures { result ≡ section_row_count road.now }
{
    let sections = road.sections.len();
    let segments = road.knots.len() - 1;
    sections + 2 * (segments - 1) + 2 * segments + 2 * road.fixed.len() + 4 * sections
}

/// The product of two small numbers.
fn product(few: usize, many: usize) -> usize
    requires few { few ≤ 4 }
    requires many { many ≤ 100 }
    ensures { result ≡ few * many }
{
    few * many
}

fn balance_count(road: &Road) -> usize
    requires { IsAccepted road.now }
    ensures { result ≡ road.now.stages * section_count road.now }
{
    product(road.stages, road.sections.len())
}

fn transit_count(road: &Road) -> usize
    requires { IsAccepted road.now }
    ensures { result ≡ block_count road.now * road.now.stages }
{
    product(road.blocks.len(), road.stages)
}

fn stop_count(road: &Road) -> usize
    requires { IsAccepted road.now }
    ensures { result ≡ block_count road.now * (2 * (road.now.stages - 1)) }
{
    product(road.blocks.len(), 2 * (road.stages - 1))
}

/// The row with this number among those for what is moved.
fn first_side(road: &Road, row: usize) -> (Side, i64)
    requires accepted { IsAccepted road.now }
    requires row { IsNumber row (haul_row_count road.now) }
    ensures { result ≡ asked (numbered no_form (haul_forms road.now) row) }
{
    let count = balance_count(road);
    if row <= count {
        balance_side(road, row)
    } else {
        later_side(road, row - count)
    }
}

fn balance_side(road: &Road, row: usize) -> (Side, i64)
    requires accepted { IsAccepted road.now }
    requires row { IsNumber row (road.now.stages * section_count road.now) }
    ensures { result ≡ asked (numbered no_form (balance_forms road.now) row) }
{
    (Side::Equal, 0)
}

/// The same behind the balances.
fn later_side(road: &Road, row: usize) -> (Side, i64)
    requires accepted { IsAccepted road.now }
    requires row { IsNumber row (pit_count road.now + (block_count road.now * road.now.stages
        + (block_count road.now * (2 * (road.now.stages - 1)) + block_count road.now * (road.now.stages - 2)))) }
    ensures { result ≡ asked (numbered no_form
        (pit_forms road.now ++ (transit_forms road.now ++ (stop_forms road.now ++ order_forms road.now))) row) }
{
    let count = road.pits.len();
    if row <= count {
        pit_side(road, row)
    } else {
        block_side(road, row - count)
    }
}

fn pit_side(road: &Road, row: usize) -> (Side, i64)
    requires accepted { IsAccepted road.now }
    requires row { IsNumber row (pit_count road.now) }
    ensures { result ≡ asked (numbered no_form (pit_forms road.now) row) }
{
    (Side::AtLeast, opposite(pit_capacity(road, row)))
}

/// A pit's capacity.
fn pit_capacity(road: &Road, number: usize) -> i64
    requires accepted { IsAccepted road.now }
    requires number { IsNumber number (pit_count road.now) }
    ensures value { result ≡ (pit road.now number).capacity }
    ensures from { pos 0 ≤ℤ result }
{
    road.pit(number).capacity
}

/// The same behind the pits.
fn block_side(road: &Road, row: usize) -> (Side, i64)
    requires accepted { IsAccepted road.now }
    requires row { IsNumber row (block_count road.now * road.now.stages
        + (block_count road.now * (2 * (road.now.stages - 1)) + block_count road.now * (road.now.stages - 2))) }
    ensures { result ≡ asked (numbered no_form (transit_forms road.now ++ (stop_forms road.now ++ order_forms road.now)) row) }
{
    let count = transit_count(road);
    if row <= count {
        transit_side(road, row)
    } else {
        last_side(road, row - count)
    }
}

fn transit_side(road: &Road, row: usize) -> (Side, i64)
    requires accepted { IsAccepted road.now }
    requires row { IsNumber row (block_count road.now * road.now.stages) }
    ensures { result ≡ asked (numbered no_form (transit_forms road.now) row) }
{
    (Side::AtLeast, 0)
}

/// The same behind the transit rows.
fn last_side(road: &Road, row: usize) -> (Side, i64)
    requires accepted { IsAccepted road.now }
    requires row { IsNumber row
        (block_count road.now * (2 * (road.now.stages - 1)) + block_count road.now * (road.now.stages - 2)) }
    ensures { result ≡ asked (numbered no_form (stop_forms road.now ++ order_forms road.now) row) }
{
    let count = stop_count(road);
    if row <= count {
        stop_side(road, row)
    } else {
        order_side(road, row - count)
    }
}

fn stop_side(road: &Road, row: usize) -> (Side, i64)
    requires accepted { IsAccepted road.now }
    requires row { IsNumber row (block_count road.now * (2 * (road.now.stages - 1))) }
    ensures { result ≡ asked (numbered no_form (stop_forms road.now) row) }
{
    let width = 2 * (road.stages - 1);
    let number = (row - 1) / width + 1;
    if (row - 1) % width % 2 == 0 {
        (Side::AtLeast, opposite(cut_cap(road, number)))
    } else {
        (Side::AtLeast, opposite(fill_cap(road, number)))
    }
}

/// The most that is cut in a stage at a block's section.
pub(crate) fn cut_cap(road: &Road, block: usize) -> i64
    requires accepted { IsAccepted road.now }
    requires block { IsNumber block (block_count road.now) }
    ensures value { result ≡ (section road.now (block_of road.now block).section).cut_max }
    ensures from { pos 0 ≤ℤ result }
{
    road.section(road.block(block).section).cut_max
}

/// The most that is filled in a stage at a block's section.
pub(crate) fn fill_cap(road: &Road, block: usize) -> i64
    requires accepted { IsAccepted road.now }
    requires block { IsNumber block (block_count road.now) }
    ensures value { result ≡ (section road.now (block_of road.now block).section).fill_max }
    ensures from { pos 0 ≤ℤ result }
{
    road.section(road.block(block).section).fill_max
}

fn order_side(road: &Road, row: usize) -> (Side, i64)
    requires accepted { IsAccepted road.now }
    requires row { IsNumber row (block_count road.now * (road.now.stages - 2)) }
    ensures { result ≡ asked (numbered no_form (order_forms road.now) row) }
{
    (Side::AtLeast, 0)
}
