// A store of three rows, of which one is written at a time.
ghost use Rattle.std.specs.Prelude.{◌≡◌, ◌≢◌, ◌+◌, ◌<◌, ◌≤◌, [], ◌++◌, length, slice_set, IfOk};

use crate::writing::Answer;
use std::alloc::{AllocError, Global};
use term_store::{RowMut, Rows, Side, Term};

/// What the named change leaves of the rows `1:5 4:-2`, `4:7` and `2:1 3:1 9:1`.
pub(crate) fn rows(alloc: Global, out: &mut Answer, name: &str) {
    match name {
        "side" => out.put(side(Side::Equal == Side::AtLeast)),
        _ => changed(alloc, out, name),
    }
}

/// The rows after a change, and each as it is shown.
fn changed(alloc: Global, out: &mut Answer, name: &str) {
    match three_rows(alloc) {
        Ok(mut rows) => {
            change(&mut rows, name);
            shown(out, &rows);
        }
        Err(_) => out.fail(),
    }
}

/// Makes the named change, if there is one.
fn change(rows: &mut Rows<i64>, name: &str)
    requires rows { length rows.old.rows ≡ 3 }
    requires width { rows.old.width ≡ 3 }
{
    match name {
        "clear" => clear_third(rows, 0, 1, 2),
        "write" => write_second(rows),
        "merge" => merge(rows),
        "swap" => rows.swap_rows(0, 2),
        "clear_swap" => {
            clear_third(rows, 0, 1, 2);
            rows.swap_rows(0, 2);
        }
        "write_stay" => {
            write_second(rows);
            stay(rows);
        }
        "stay" => stay(rows),
        _ => {}
    }
}

fn side(same: bool) -> &'static str {
    if same { "one" } else { "two" }
}

fn term(column: u32, value: i64) -> Term<i64> {
    Term { column, value }
}

/// Three rows, with room for no further one and for three terms each.
fn three_rows(alloc: Global) -> Result<Rows<i64>, AllocError>
    ensures rows { IfOk result (λ s. length s.rows ≡ 3) }
    ensures width { IfOk result (λ s. s.width ≡ 3) }
{
    let mut rows = Rows::new(alloc, 3, 3)?;
    rows.push_row(&[term(1, 5), term(4, -2)]);
    rows.push_row(&[term(4, 7)]);
    rows.push_row(&[term(2, 1), term(3, 1), term(9, 1)]);
    Ok(rows)
}

/// Empties row `k`: what a caller knows of the whole store after a loan.
fn clear_third(rows: &mut Rows<i64>, i: usize, j: usize, k: usize)
    requires rows { (i < length rows.old.rows) × ((j < length rows.old.rows) × (k < length rows.old.rows)) }
    requires differ { ((k ≢ i) × (k ≢ j)) × (i ≢ j) }
    ensures rows { rows.new.rows ≡ slice_set rows.old.rows k [] }
    ensures room { rows.new.room ≡ rows.old.room }
    ensures width { rows.new.width ≡ rows.old.width }
{
    let (_, _, view) = rows.merge_mut(i, j, k);
    view.clear();
}

/// Puts another term in the place of the second row's first one, and one behind it.
fn write_second(rows: &mut Rows<i64>)
    requires rows { 1 < length rows.old.rows }
    requires width { rows.old.width ≡ 3 }
{
    let view = rows.row_mut(1);
    if view.len() == 1 && view.term(0) == term(4, 7) {
        view.set(0, term(3, 8));
        view.push(term(6, 2));
    }
}

/// Exchanges the second row with itself.
fn stay(rows: &mut Rows<i64>) {
    if rows.count() > 1 {
        rows.swap_rows(1, 1);
    }
}

/// Merges the first two rows into the third.
fn merge(rows: &mut Rows<i64>)
    requires rows { length rows.old.rows ≡ 3 }
    requires width { rows.old.width ≡ 3 }
{
    clear_third(rows, 0, 1, 2);
    let (left, right, view) = rows.merge_mut(0, 1, 2);
    if view.len() == 0 && left.len() <= 2 && right.len() <= 1 {
        add_into(left, right, view);
    }
}

/// Puts the sum of two rows, by rising column, behind what the view shows.
fn add_into(left: &[Term<i64>], right: &[Term<i64>], view: RowMut<'_, i64>)
    requires { length view.old.terms + (length left.now + length right.now) ≤ view.old.room }
{
    let mut a = 0;
    let mut b = 0;
    while a < left.len() && b < right.len() {
        let (x, y) = (left[a], right[b]);
        if x.column < y.column {
            view.push(x);
            a += 1;
        } else if y.column < x.column {
            view.push(y);
            b += 1;
        } else {
            view.push(term(x.column, x.value.wrapping_add(y.value)));
            a += 1;
            b += 1;
        }
    }
    push_all(&left[a..], view);
    push_all(&right[b..], view);
}

fn push_all(terms: &[Term<i64>], view: RowMut<'_, i64>)
    requires { length view.old.terms + length terms.now ≤ view.old.room }
    ensures terms { view.new.terms ≡ view.old.terms ++ terms.now }
    ensures room { view.new.room ≡ view.old.room }
{
    for term in terms {
        view.push(*term);
    }
}

/// How many rows there are, and their terms.
fn shown(out: &mut Answer, rows: &Rows<i64>) {
    let count = rows.count();
    out.put(format_args!("{count} rows"));
    for i in 0..count {
        row_shown(out, rows.row(i));
    }
}

fn row_shown(out: &mut Answer, row: &[Term<i64>]) {
    out.put(" |");
    for term in row {
        let (column, value) = (term.column, term.value);
        out.put(format_args!(" {column}:{value}"));
    }
}
