// Whether numbers are a point of a program, and what the point costs.
ghost use Rattle.std.specs.Prelude.{◌≡◌, IsTrue, IfSome, ℕ, pos, ◌*ℤ◌, ◌≤ℤ◌, slice_index_or};
ghost use Rattle.algebra.specs.Numbered.{IsNumber};
ghost use Rattle.programs.specs.Programs.{column_count, row_at, row_count};
ghost use Rattle.programs.specs.Points.{IsInBoundsAt, IsPoint, MeetsRow, MeetsRows, Satisfies, cost_of_point, cost_share, numerator_at, value_at};

use milp_builder::Milp;
use term_store::{Side, Term};

/// Whether the numbers over the denominator meet the rows in the bounds; `false` also where a number has more than 128 bits.
pub(crate) fn is_point(milp: &Milp, den: i128, point: &[i128]) -> bool
    ensures { IsTrue result → IsPoint milp.now den point.now }
{
    point.len() == milp.columns() && is_in_bounds(milp, den, point) && meets_rows(milp, den, point)
}

fn is_in_bounds(milp: &Milp, den: i128, point: &[i128]) -> bool
    ensures { IsTrue result → (j : ℕ) → IsNumber j (column_count milp.now) → IsInBoundsAt milp.now den point.now j }
{
    for before in 0..milp.columns() {
        if !is_in_bounds_at(milp, den, point, before + 1) {
            return false;
        }
    }
    true
}

fn is_in_bounds_at(milp: &Milp, den: i128, point: &[i128], j: usize) -> bool
    requires { IsNumber j (column_count milp.now) }
    ensures { IsTrue result → IsInBoundsAt milp.now den point.now j }
{
    let (low, high) = milp.bounds(j);
    let Some(least) = product(low, den) else {
        return false;
    };
    let Some(greatest) = product(high, den) else {
        return false;
    };
    is_between(numerator(point, j), least, greatest)
}

fn is_between(x: i128, least: i128, greatest: i128) -> bool
    ensures { IsTrue result → (least ≤ℤ x) × (x ≤ℤ greatest) }
{
    least <= x && x <= greatest
}

fn meets_rows(milp: &Milp, den: i128, point: &[i128]) -> bool
    ensures { IsTrue result → MeetsRows milp.now den point.now }
{
    for before in 0..milp.rows() {
        if !meets_row(milp, den, point, before + 1) {
            return false;
        }
    }
    true
}

fn meets_row(milp: &Milp, den: i128, point: &[i128], i: usize) -> bool
    requires { IsNumber i (row_count milp.now) }
    ensures { IsTrue result → MeetsRow den point.now (row_at milp.now i) }
{
    let row = milp.row(i);
    let Some(value) = value_at(row.terms(), point) else {
        return false;
    };
    let Some(right) = product(row.right(), den) else {
        return false;
    };
    satisfies(row.side(), value, right)
}

fn satisfies(side: Side, value: i128, right: i128) -> bool
    ensures { IsTrue result → Satisfies side value right }
{
    match side {
        Side::Equal => value == right,
        Side::AtLeast => right <= value,
    }
}

/// The sum of a row's terms at the point.
fn value_at(terms: &[Term<i64>], point: &[i128]) -> Option<i128>
    ensures { IfSome result (λ value. value ≡ value_at point.now terms.now) }
{
    let mut value: i128 = 0;
    for term in terms {
        let share = product(term.value, numerator(point, term.column as usize))?;
        value = value.checked_add(share)?;
    }
    Some(value)
}

/// What the point costs in the program, times its denominator.
pub(crate) fn cost_of_point(milp: &Milp, point: &[i128]) -> Option<i128>
    ensures { IfSome result (λ cost. cost ≡ cost_of_point milp.now point.now) }
{
    let mut cost: i128 = 0;
    for before in 0..milp.columns() {
        let share = cost_share(milp, point, before + 1)?;
        cost = cost.checked_add(share)?;
    }
    Some(cost)
}

fn cost_share(milp: &Milp, point: &[i128], j: usize) -> Option<i128>
    requires { IsNumber j (column_count milp.now) }
    ensures { IfSome result (λ share. share ≡ cost_share milp.now point.now j) }
{
    product(milp.cost(j), numerator(point, j))
}

fn product(coefficient: i64, numerator: i128) -> Option<i128>
    ensures { IfSome result (λ share. share ≡ coefficient *ℤ numerator) }
{
    i128::from(coefficient).checked_mul(numerator)
}

/// The numerator of column `j`, numbered from 1; 0 where the point has none.
fn numerator(point: &[i128], j: usize) -> i128
    ensures { result ≡ numerator_at point.now j }
{
    match j.checked_sub(1) {
        Some(place) => at(point, place),
        None => 0,
    }
}

fn at(point: &[i128], place: usize) -> i128
    ensures { result ≡ slice_index_or point.now place (pos 0) }
{
    match point.get(place) {
        Some(numerator) => *numerator,
        None => 0,
    }
}
