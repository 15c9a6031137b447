// Whether a plan has the lists of a road and numbers of a moderate size.
ghost use Rattle.std.specs.Prelude.{◌↔◌, IsTrue, ◌≡◌, length, ◌^◌, ◌-◌};
ghost use Rattle.std.specs.List.{All};
ghost use Rattle.algebra.specs.Scale.{IsScale};
ghost use Rattle.road_types.specs.Road.{segment_count};
ghost use Rattle.plan_rules.specs.Fits.{Fits, IsModerate, IsModeratePiece};
ghost use Rattle.plan_rules.specs.inside.FitsByParts.{IsModerateRow, IsModerateTable, HasModerateTables, HasModeratePieces};

use crate::logic::both;
use crate::plan::{Piece, Plan};
use algebra::{GREATEST_SCALE, at_most};
use road_types::{Listed, Road};

/// One more than the greatest magnitude of a plan's numbers.
const MAGNITUDE_LIMIT: u128 = 1_000_000_000_000_000_000_000_000_000_000;

impl Plan {
    /// Whether the lists have the road's lengths, the denominator is in 1..=2^40 and every number's magnitude is below 10^30.
    pub fn fits(&self, road: &Road) -> bool
        ensures { IsTrue result ↔ Fits road.now self.now }
    {
        both(
            has_moderate_pieces(self, road),
            has_moderate_tables(self, road),
        )
    }
}

fn has_moderate_pieces(plan: &Plan, road: &Road) -> bool
    ensures { IsTrue result ↔ HasModeratePieces road.now plan.now }
{
    let same_lengths = both(
        is_piece_count(plan, road),
        plan.opens.len() == road.blocks.len(),
    );
    let moderate = both(
        is_denominator(plan.den),
        all_moderate_pieces(plan.pieces.as_slice()),
    );
    both(same_lengths, moderate)
}

fn is_piece_count(plan: &Plan, road: &Road) -> bool
    ensures { IsTrue result ↔ (length plan.now.pieces ≡ segment_count road.now) }
{
    plan.pieces.len() == road.knots.len().saturating_sub(1)
}

fn is_denominator(den: i128) -> bool
    ensures { IsTrue result ↔ IsScale den }
{
    both(at_most(1, den), at_most(den, GREATEST_SCALE))
}

fn has_moderate_tables(plan: &Plan, road: &Road) -> bool
    ensures { IsTrue result ↔ HasModerateTables road.now plan.now }
{
    let sections = road.sections.len();
    let hops = sections.saturating_sub(1);
    let cut_and_fill = both(
        is_moderate_table(&plan.cut, road.stages, sections),
        is_moderate_table(&plan.fill, road.stages, sections),
    );
    let hauls = both(
        is_moderate_table(&plan.right, road.stages, hops),
        is_moderate_table(&plan.left, road.stages, hops),
    );
    let access = is_moderate_table(&plan.roads, road.stages, road.roads.len());
    both(both(cut_and_fill, hauls), access)
}

fn is_moderate_table(rows: &Listed<Listed<i128>>, stages: usize, entries: usize) -> bool
    ensures { IsTrue result ↔ IsModerateTable stages entries rows.now }
{
    both(
        rows.len() == stages,
        all_moderate_rows(rows.as_slice(), entries),
    )
}

fn all_moderate_rows(rows: &[Listed<i128>], entries: usize) -> bool
    ensures { IsTrue result ↔ All (IsModerateRow entries) rows.now }
{
    rows.iter().all(|row| is_moderate_row(row, entries))
}

fn is_moderate_row(row: &Listed<i128>, entries: usize) -> bool
    ensures { IsTrue result ↔ IsModerateRow entries row.now }
{
    both(row.len() == entries, all_moderate(row.as_slice()))
}

fn all_moderate(row: &[i128]) -> bool
    ensures { IsTrue result ↔ All IsModerate row.now }
{
    row.iter().all(|x| is_moderate(*x))
}

fn all_moderate_pieces(pieces: &[Piece]) -> bool
    ensures { IsTrue result ↔ All IsModeratePiece pieces.now }
{
    pieces.iter().all(|piece| is_moderate_piece(piece))
}

fn is_moderate_piece(piece: &Piece) -> bool
    ensures { IsTrue result ↔ IsModeratePiece piece.now }
{
    both(
        both(is_moderate(piece.a), is_moderate(piece.b)),
        is_moderate(piece.c),
    )
}

fn is_moderate(x: i128) -> bool
    ensures { IsTrue result ↔ IsModerate x }
{
    x.unsigned_abs() < MAGNITUDE_LIMIT
}
