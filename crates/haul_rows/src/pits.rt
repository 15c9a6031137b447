// The rows that keep pits to their capacities.
ghost use Rattle.std.specs.Prelude.{◌≡◌, ◌<◌, ◌≤◌, ◌+◌, ◌-◌, [], ◌∷◌, ◌++◌, length};
ghost use Rattle.algebra.specs.Lists.{list_to, flat_to};
ghost use Rattle.algebra.specs.Numbered.{IsNumber};
ghost use Rattle.form_rows.specs.FormRows.{form_terms, forms_terms, Grew};
ghost use Rattle.road_types.specs.Accepted.{IsAccepted};
ghost use Rattle.road_types.specs.Columns.{column_count};
ghost use Rattle.road_types.specs.HaulForms.{taken, pit_form, pit_forms};
ghost use Rattle.road_types.specs.Road.{access_count, pit_count};
ghost use Rattle.road_types.specs.RoadPrograms.{terms_of};
ghost use Rattle.road_types.specs.declared.column.Column.TheVariants.{Access as AccessColumn};

use form_rows::FormRow;
use road_types::{Column, Road};
use term_store::Rows;

/// What an access road takes of a pit's capacity: -1, and 0 where it belongs to another pit.
fn taken(road: &Road, pit: usize, number: usize) -> i64
    requires { IsNumber number (access_count road.now) }
    ensures { result ≡ taken road.now pit number }
{
    if road.access(number).pit == pit {
        -1
    } else {
        0
    }
}

/// Adds the amounts on access roads in a stage, by what they take of a pit's capacity.
fn add_taken(road: &Road, pit: usize, stage: usize, row: &mut FormRow)
    requires accepted { IsAccepted road.now }
    requires room { length row.old ≤ 60 }
    ensures terms { row.new ≡ row.old
        ++ terms_of road.now (list_to (λ q. (AccessColumn q stage, taken road.now pit q)) (access_count road.now)) }
    ensures few { length row.new ≤ length row.old + 16 }
{
    for before in 0..road.roads.len() {
        let number = before + 1;
        row.add(
            road,
            Column::Access {
                road: number,
                stage,
            },
            taken(road, pit, number),
        );
    }
}

/// Adds them in all stages.
fn add_all_taken(road: &Road, pit: usize, row: &mut FormRow)
    requires accepted { IsAccepted road.now }
    requires room { row.old ≡ [] }
    ensures { row.new
        ≡ terms_of road.now (flat_to (λ t. list_to (λ q. (AccessColumn q t, taken road.now pit q)) (access_count road.now)) road.now.stages) }
{
    for before in 0..road.stages {
        add_taken(road, pit, before + 1, row);
    }
}

/// The row of a pit.
fn pit_row(road: &Road, pit: usize, row: &mut FormRow, rows: &mut Rows<i64>)
    requires accepted { IsAccepted road.now }
    requires free { length rows.old.rows < rows.old.room }
    requires width { column_count road.now ≤ rows.old.width }
    ensures { Grew rows.old rows.new (form_terms road.now (pit_form road.now pit) ∷ []) }
{
    row.clear();
    add_all_taken(road, pit, row);
    row.put(rows);
}

/// The rows of all pits.
pub(crate) fn pit_rows(road: &Road, row: &mut FormRow, rows: &mut Rows<i64>)
    requires accepted { IsAccepted road.now }
    requires free { length rows.old.rows + pit_count road.now ≤ rows.old.room }
    requires width { column_count road.now ≤ rows.old.width }
    ensures { Grew rows.old rows.new (forms_terms road.now (pit_forms road.now)) }
{
    for before in 0..road.pits.len() {
        pit_row(road, before + 1, row, rows);
    }
}
