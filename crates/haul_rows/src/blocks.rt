// The rows of blocks: transit, stop and order.
ghost use Rattle.std.specs.Prelude.{◌≡◌, ◌<◌, ◌≤◌, ◌+◌, ◌*◌, ◌-◌, [], ◌∷◌, length, pos, neg_ℤ, ◌≤ℤ◌};
ghost use Rattle.algebra.specs.Lists.{list_to, flat_to};
ghost use Rattle.algebra.specs.Numbered.{IsNumber};
ghost use Rattle.form_rows.specs.FormRows.{form_terms, forms_terms, Grew};
ghost use Rattle.road_types.specs.Accepted.{IsAccepted};
ghost use Rattle.road_types.specs.Columns.{column_count};
ghost use Rattle.road_types.specs.HaulForms.{greatest_haul_out, transit_form, transit_forms, cut_stop_form, fill_stop_form, stop_forms, order_form, order_forms};
ghost use Rattle.road_types.specs.RecordFaults.{is_number};
ghost use Rattle.road_types.specs.Road.{hop, section_count, hop_count, block_count};

use crate::sides::{cut_cap, fill_cap};
use form_rows::FormRow;
use road_types::{Column, Road};
use term_store::Rows;

/// Whether a hop has this number.
fn is_hop(road: &Road, number: usize) -> bool
    ensures { result ≡ is_number number (hop_count road.now) }
{
    1 <= number && number <= road.hops.len()
}

/// The cap of hauls to the right over a hop, 0 past an end.
fn right_cap(road: &Road, number: usize) -> i64
    requires { IsAccepted road.now }
    ensures value { result ≡ (hop road.now number).right_max }
    ensures from { pos 0 ≤ℤ result }
    ensures to { result ≤ℤ pos 100000000000000 }
{
    if is_hop(road, number) {
        road.hop(number).right_max
    } else {
        0
    }
}

/// The cap of hauls to the left over a hop, 0 past an end.
fn left_cap(road: &Road, number: usize) -> i64
    requires { IsAccepted road.now }
    ensures value { result ≡ (hop road.now number).left_max }
    ensures from { pos 0 ≤ℤ result }
    ensures to { result ≤ℤ pos 100000000000000 }
{
    if is_hop(road, number) {
        road.hop(number).left_max
    } else {
        0
    }
}

/// The most that can leave a section by hauls in a stage.
fn greatest_haul_out(road: &Road, section: usize) -> i64
    requires accepted { IsAccepted road.now }
    requires section { IsNumber section (section_count road.now) }
    ensures { result ≡ greatest_haul_out road.now section }
{
    right_cap(road, section) + left_cap(road, section - 1)
}

/// The row that lets no more leave a block's section in a stage than is cut there, before the block is opened.
fn transit_row(road: &Road, block: usize, stage: usize, row: &mut FormRow, rows: &mut Rows<i64>)
    requires accepted { IsAccepted road.now }
    requires block { IsNumber block (block_count road.now) }
    requires stage { IsNumber stage road.now.stages }
    requires free { length rows.old.rows < rows.old.room }
    requires width { column_count road.now ≤ rows.old.width }
    ensures { Grew rows.old rows.new (form_terms road.now (transit_form road.now block stage) ∷ []) }
{
    let section = road.block(block).section;
    let hauls = greatest_haul_out(road, section);
    row.clear();
    row.add_all(
        road,
        &[
            (Column::Cut { section, stage }, 1),
            (
                Column::Right {
                    hop: section,
                    stage,
                },
                -1,
            ),
            (
                Column::Left {
                    hop: section - 1,
                    stage,
                },
                -1,
            ),
            (Column::Opened { block, stage }, hauls),
        ],
    );
    row.put(rows);
}

/// The transit rows of a block.
fn block_transit_rows(road: &Road, block: usize, row: &mut FormRow, rows: &mut Rows<i64>)
    requires accepted { IsAccepted road.now }
    requires block { IsNumber block (block_count road.now) }
    requires free { length rows.old.rows + road.now.stages ≤ rows.old.room }
    requires width { column_count road.now ≤ rows.old.width }
    ensures { Grew rows.old rows.new (forms_terms road.now (list_to (transit_form road.now block) road.now.stages)) }
{
    for before in 0..road.stages {
        transit_row(road, block, before + 1, row, rows);
    }
}

/// The transit rows of all blocks.
pub(crate) fn transit_rows(road: &Road, row: &mut FormRow, rows: &mut Rows<i64>)
    requires accepted { IsAccepted road.now }
    requires free { length rows.old.rows + block_count road.now * road.now.stages ≤ rows.old.room }
    requires width { column_count road.now ≤ rows.old.width }
    ensures { Grew rows.old rows.new (forms_terms road.now (transit_forms road.now)) }
{
    for before in 0..road.blocks.len() {
        block_transit_rows(road, before + 1, row, rows);
    }
}

/// The opposite of a cap.
pub(crate) fn opposite(cap: i64) -> i64
    requires { pos 0 ≤ℤ cap }
    ensures { result ≡ neg_ℤ cap }
{
    -cap
}

/// The row that stops cutting at a block's section once it is opened.
fn cut_stop_row(road: &Road, block: usize, stage: usize, row: &mut FormRow, rows: &mut Rows<i64>)
    requires accepted { IsAccepted road.now }
    requires block { IsNumber block (block_count road.now) }
    requires free { length rows.old.rows < rows.old.room }
    requires width { column_count road.now ≤ rows.old.width }
    ensures { Grew rows.old rows.new (form_terms road.now (cut_stop_form road.now block stage) ∷ []) }
{
    let section = road.block(block).section;
    let cap = opposite(cut_cap(road, block));
    row.clear();
    row.add_all(
        road,
        &[
            (Column::Cut { section, stage }, -1),
            (Column::Opened { block, stage }, cap),
        ],
    );
    row.put(rows);
}

/// The row that stops filling at a block's section once it is opened.
fn fill_stop_row(road: &Road, block: usize, stage: usize, row: &mut FormRow, rows: &mut Rows<i64>)
    requires accepted { IsAccepted road.now }
    requires block { IsNumber block (block_count road.now) }
    requires free { length rows.old.rows < rows.old.room }
    requires width { column_count road.now ≤ rows.old.width }
    ensures { Grew rows.old rows.new (form_terms road.now (fill_stop_form road.now block stage) ∷ []) }
{
    let section = road.block(block).section;
    let cap = opposite(fill_cap(road, block));
    row.clear();
    row.add_all(
        road,
        &[
            (Column::Fill { section, stage }, -1),
            (Column::Opened { block, stage }, cap),
        ],
    );
    row.put(rows);
}

/// The stop rows of a block.
fn block_stop_rows(road: &Road, block: usize, row: &mut FormRow, rows: &mut Rows<i64>)
    requires accepted { IsAccepted road.now }
    requires block { IsNumber block (block_count road.now) }
    requires free { length rows.old.rows + 2 * (road.now.stages - 1) ≤ rows.old.room }
    requires width { column_count road.now ≤ rows.old.width }
    ensures { Grew rows.old rows.new (forms_terms road.now
        (flat_to (λ before. cut_stop_form road.now block (before + 1) ∷ fill_stop_form road.now block (before + 1) ∷ []) (road.now.stages - 1))) }
{
    for before in 0..road.stages - 1 {
        let stage = before + 1 + 1;
        cut_stop_row(road, block, stage, row, rows);
        fill_stop_row(road, block, stage, row, rows);
    }
}

/// The stop rows of all blocks.
pub(crate) fn stop_rows(road: &Road, row: &mut FormRow, rows: &mut Rows<i64>)
    requires accepted { IsAccepted road.now }
    requires free { length rows.old.rows + block_count road.now * (2 * (road.now.stages - 1)) ≤ rows.old.room }
    requires width { column_count road.now ≤ rows.old.width }
    ensures { Grew rows.old rows.new (forms_terms road.now (stop_forms road.now)) }
{
    for before in 0..road.blocks.len() {
        block_stop_rows(road, before + 1, row, rows);
    }
}

/// The row by which a block that is opened at a stage is so at the next one.
fn order_row(road: &Road, block: usize, stage: usize, row: &mut FormRow, rows: &mut Rows<i64>)
    requires accepted { IsAccepted road.now }
    requires stage { IsNumber stage road.now.stages }
    requires free { length rows.old.rows < rows.old.room }
    requires width { column_count road.now ≤ rows.old.width }
    ensures { Grew rows.old rows.new (form_terms road.now (order_form road.now block stage) ∷ []) }
{
    let next = stage + 1;
    row.clear();
    row.add_all(
        road,
        &[
            (Column::Opened { block, stage }, -1),
            (Column::Opened { block, stage: next }, 1),
        ],
    );
    row.put(rows);
}

/// The order rows of a block.
fn block_order_rows(road: &Road, block: usize, row: &mut FormRow, rows: &mut Rows<i64>)
    requires accepted { IsAccepted road.now }
    requires free { length rows.old.rows + (road.now.stages - 2) ≤ rows.old.room }
    requires width { column_count road.now ≤ rows.old.width }
    ensures { Grew rows.old rows.new
        (forms_terms road.now (list_to (λ before. order_form road.now block (before + 1)) (road.now.stages - 2))) }
{
    for before in 0..later_stages(road) {
        order_row(road, block, before + 1 + 1, row, rows);
    }
}

/// The number of stages behind the second one.
fn later_stages(road: &Road) -> usize
    ensures { result ≡ road.now.stages - 2 }
{
    road.stages.saturating_sub(2)
}

/// The order rows of all blocks.
pub(crate) fn order_rows(road: &Road, row: &mut FormRow, rows: &mut Rows<i64>)
    requires accepted { IsAccepted road.now }
    requires free { length rows.old.rows + block_count road.now * (road.now.stages - 2) ≤ rows.old.room }
    requires width { column_count road.now ≤ rows.old.width }
    ensures { Grew rows.old rows.new (forms_terms road.now (order_forms road.now)) }
{
    for before in 0..road.blocks.len() {
        block_order_rows(road, before + 1, row, rows);
    }
}
