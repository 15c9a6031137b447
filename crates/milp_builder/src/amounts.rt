// What is moved in a stage, kind by kind.
ghost use Rattle.std.specs.Prelude.{◌≡◌};
ghost use Rattle.milp_builder.specs.inside.Amounts.{column_in};

use road_types::Column;

/// What is moved in a stage, in rows of numbers.
#[derive(Clone, Copy)]
pub enum Amount {
    Cut,
    Fill,
    Right,
    Left,
    Access,
}

/// The kind of column of an amount.
pub fn column_in(amount: Amount, number: usize, stage: usize) -> Column
    ensures { result ≡ column_in amount number stage }
{
    match amount {
        Amount::Cut => Column::Cut {
            section: number,
            stage,
        },
        Amount::Fill => Column::Fill {
            section: number,
            stage,
        },
        Amount::Right => Column::Right { hop: number, stage },
        Amount::Left => Column::Left { hop: number, stage },
        Amount::Access => Column::Access {
            road: number,
            stage,
        },
    }
}
