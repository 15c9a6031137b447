// The rows' part of a value: their right sides, and what their multipliers draw at each column.
ghost use Rattle.std.specs.Prelude.{◌≡◌, ◌↔◌, IsTrue, ℕ, ◌+◌, ◌*◌, ◌^◌, ◌≤◌, [], ◌∷◌, length, pos, ◌*ℤ◌, unsigned_abs};
ghost use Rattle.algebra.specs.Numbered.{numbered, IsNumber};
ghost use Rattle.programs.specs.Programs.{column_count, row_at, row_count};
ghost use Rattle.programs.specs.Limits.{IsWithinLimits, Rises};
ghost use Rattle.safe_bounds.specs.Values.{AreMultipliers, IsMultiplier, combined, rights_value};
ghost use Rattle.safe_bounds.specs.inside.Drawn.{AreAtMost, HaveDrawn};

use crate::products::times_word;
use algebra::plus;
use programs::Milp;
use term_store::Term;

/// The sum of multiplier times right side over all rows; `drawn`, all 0 before, has the sum of multiplier times
/// coefficient at each column. Rows whose multiplier is 0 are passed over.
pub(crate) fn draw_rows(milp: &Milp, mults: &[i128], drawn: &mut [i128]) -> i128
    requires limits { IsWithinLimits milp.now }
    requires mults { AreMultipliers milp.now mults.now }
    requires columns { length drawn.old ≡ column_count milp.now }
    requires zero { AreAtMost 0 drawn.old }
    ensures value { result ≡ rights_value milp.now.rows mults.now }
    ensures drawn { (j : ℕ) → IsNumber j (column_count milp.now)
        → numbered (pos 0) drawn.new j ≡ combined j milp.now.rows mults.now }
    ensures width { AreAtMost (2 ^ 123) drawn.new }
{
    let mut value = 0;
    for (place, mult) in mults.iter().enumerate() {
        value = plus(value, draw_row(milp, place + 1, *mult, drawn));
    }
    value
}

/// Draws row `i`, numbered from 1, by a multiplier; returns the multiplier times the right side.
fn draw_row(milp: &Milp, i: usize, mult: i128, drawn: &mut [i128]) -> i128
    requires number { IsNumber i (row_count milp.now) }
    requires mult { IsMultiplier mult }
    requires columns { length drawn.old ≡ column_count milp.now }
    requires room { AreAtMost (2 ^ 123) drawn.old }
    ensures value { result ≡ mult *ℤ (row_at milp.now i).right }
    ensures small { unsigned_abs result ≤ 2 ^ 103 }
    ensures drawn { HaveDrawn drawn.old mult (row_at milp.now i).terms drawn.new }
    ensures width { (k : ℕ) → AreAtMost k drawn.old → AreAtMost (k + 2 ^ 113) drawn.new }
{
    if is_zero(mult) {
        return 0;
    }
    let row = milp.row(i);
    draw_terms(row.terms(), mult, drawn);
    times_word(mult, row.right())
}

/// Whether a multiplier is 0.
fn is_zero(mult: i128) -> bool
    ensures { IsTrue result ↔ (mult ≡ pos 0) }
{
    mult == 0
}

/// Draws a row's terms by a multiplier.
fn draw_terms(terms: &[Term<i64>], mult: i128, drawn: &mut [i128])
    requires rising { Rises 0 (length drawn.old) terms.now }
    requires mult { IsMultiplier mult }
    requires room { AreAtMost (2 ^ 123) drawn.old }
    requires few { length drawn.old ≤ 1000 }
    ensures drawn { HaveDrawn drawn.old mult terms.now drawn.new }
    ensures width { (k : ℕ) → AreAtMost k drawn.old → AreAtMost (k + length terms.now * 2 ^ 103) drawn.new }
{
    for term in terms {
        draw_term(*term, mult, drawn);
    }
}

/// Draws one term by a multiplier.
fn draw_term(term: Term<i64>, mult: i128, drawn: &mut [i128])
    requires column { IsNumber term.column (length drawn.old) }
    requires mult { IsMultiplier mult }
    requires room { AreAtMost (2 ^ 124) drawn.old }
    ensures drawn { HaveDrawn drawn.old mult (term ∷ []) drawn.new }
    ensures width { (k : ℕ) → AreAtMost k drawn.old → AreAtMost (k + 2 ^ 103) drawn.new }
{
    let place = term.column as usize - 1;
    drawn[place] = plus(drawn[place], times_word(mult, term.value));
}
