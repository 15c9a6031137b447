// The rows that balance each section in each stage.
ghost use Rattle.std.specs.Prelude.{◌≡◌, ◌<◌, ◌≤◌, ◌+◌, ◌*◌, ◌-◌, [], ◌∷◌, ◌++◌, length};
ghost use Rattle.algebra.specs.Lists.{list_to};
ghost use Rattle.algebra.specs.Numbered.{IsNumber};
ghost use Rattle.form_rows.specs.FormRows.{form_terms, forms_terms, Grew};
ghost use Rattle.road_types.specs.Accepted.{IsAccepted};
ghost use Rattle.road_types.specs.Columns.{column_count};
ghost use Rattle.road_types.specs.HaulForms.{brought, balance_form, balance_forms};
ghost use Rattle.road_types.specs.Road.{section_count, access_count};
ghost use Rattle.road_types.specs.RoadPrograms.{terms_of};
ghost use Rattle.road_types.specs.declared.column.Column.TheVariants.{Access as AccessColumn};

use form_rows::FormRow;
use road_types::{Column, PitKind, Road};
use term_store::Rows;

/// What an access road brings to a section: 1 of a borrow pit, -1 of a waste pit, 0 where it stands elsewhere.
fn brought(road: &Road, section: usize, number: usize) -> i64
    requires accepted { IsAccepted road.now }
    requires number { IsNumber number (access_count road.now) }
    ensures { result ≡ brought road.now section number }
{
    if road.serves(PitKind::Borrow, section, number) {
        return 1;
    }
    if road.serves(PitKind::Waste, section, number) {
        return -1;
    }
    0
}

/// Adds the amounts on access roads in a stage, by what they bring to a section.
fn add_brought(road: &Road, section: usize, stage: usize, row: &mut FormRow)
    requires accepted { IsAccepted road.now }
    requires room { length row.old ≤ 60 }
    ensures terms { row.new ≡ row.old
        ++ terms_of road.now (list_to (λ q. (AccessColumn q stage, brought road.now section q)) (access_count road.now)) }
    ensures few { length row.new ≤ length row.old + 16 }
{
    for before in 0..road.roads.len() {
        let number = before + 1;
        row.add(
            road,
            Column::Access {
                road: number,
                stage,
            },
            brought(road, section, number),
        );
    }
}

/// The row that balances a section in a stage.
fn balance_row(road: &Road, stage: usize, section: usize, row: &mut FormRow, rows: &mut Rows<i64>)
    requires accepted { IsAccepted road.now }
    requires stage { IsNumber stage road.now.stages }
    requires section { IsNumber section (section_count road.now) }
    requires free { length rows.old.rows < rows.old.room }
    requires width { column_count road.now ≤ rows.old.width }
    ensures { Grew rows.old rows.new (form_terms road.now (balance_form road.now stage section) ∷ []) }
{
    let before = section - 1;
    row.clear();
    row.add_all(
        road,
        &[
            (Column::Cut { section, stage }, 1),
            (Column::Fill { section, stage }, -1),
            (Column::Right { hop: before, stage }, 1),
            (
                Column::Right {
                    hop: section,
                    stage,
                },
                -1,
            ),
            (Column::Left { hop: before, stage }, -1),
            (
                Column::Left {
                    hop: section,
                    stage,
                },
                1,
            ),
        ],
    );
    add_brought(road, section, stage, row);
    row.put(rows);
}

/// The rows that balance all sections in a stage.
fn stage_rows(road: &Road, stage: usize, row: &mut FormRow, rows: &mut Rows<i64>)
    requires accepted { IsAccepted road.now }
    requires stage { IsNumber stage road.now.stages }
    requires free { length rows.old.rows + section_count road.now ≤ rows.old.room }
    requires width { column_count road.now ≤ rows.old.width }
    ensures { Grew rows.old rows.new
        (forms_terms road.now (list_to (balance_form road.now stage) (section_count road.now))) }
{
    for before in 0..road.sections.len() {
        balance_row(road, stage, before + 1, row, rows);
    }
}

/// The rows that balance all sections in all stages.
pub(crate) fn balance_rows(road: &Road, row: &mut FormRow, rows: &mut Rows<i64>)
    requires accepted { IsAccepted road.now }
    requires free { length rows.old.rows + road.now.stages * section_count road.now ≤ rows.old.room }
    requires width { column_count road.now ≤ rows.old.width }
    ensures { Grew rows.old rows.new (forms_terms road.now (balance_forms road.now)) }
{
    for before in 0..road.stages {
        stage_rows(road, before + 1, row, rows);
    }
}
