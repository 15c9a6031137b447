// The store: its rows in a list, but for one beside them, which can be lent while others are read.
ghost use Rattle.std.specs.Prelude.{◌≡◌, ◌<◌, ◌≤◌, ◌≢◌, ◌++◌, ◌∷◌, [], length, IfOk};
ghost use Rattle.std.specs.List.{swap};
ghost use Rattle.std.specs.Borrow.{sem, follows};
ghost use Rattle.term_store.specs.HeldRows.{row_at, with_row, AllFit, KeepsWidth};
ghost use Rattle.term_store.specs.inside.Lending.{AllHaveRoom};

use crate::lending::keep_apart;
use crate::row::{Row, RowMut};
use crate::term::Term;
use std::alloc::{AllocError, Global};
use std::marker::Model;

/// Rows of terms, counted from 0. `new` takes all the memory that they need, and nothing else takes any.
#[derive(Debug, Drop)]
pub struct Rows<V> {
    // All rows, those in use first, but for the one that is kept apart: a spare row lies in its place.
    rows: Vec<Row<V>>,
    kept: Row<V>,
    place: usize,
    count: usize,
    width: usize,
}

impl<V> Model for Rows<V> {
    ghost use Rattle.term_store.specs.HeldRows.{HeldRows, held_rows_code};
    ghost use Rattle.term_store.specs.inside.Lending.{seen, IsInOrder};
    ghost use Rattle.term_store.specs.declared.term.Term.{Term};

    ghost Value = { HeldRows (Term V) };

    ghost view = { λ s. seen s.count s.width s.rows.items s.place s.kept };

    ghost invariant = { λ s. IsInOrder s.count s.width s.rows.items s.place };
}

impl<V: Copy> Rows<V> {
    ghost use Rattle.term_store.specs.contracts.rows.Rows.{the_row};
    ghost use Rattle.term_store.specs.contracts.row.Row.{the_row as row_type};

    /// A store of no rows yet, with room for `rows` rows of `width` terms each.
    /// `AllocError` where that memory can't be had.
    pub fn new(alloc: Global, rows: usize, width: usize) -> Result<Rows<V>, AllocError>
        ensures { IfOk result (λ s. s ≡ record { rows = []; room = rows; width = width }) }
    {
        let kept = Row::with_room(alloc, width)?;
        Ok(Rows {
            rows: empty_rows(alloc, rows, width)?,
            kept,
            place: 0,
            count: 0,
            width,
        })
    }

    /// The number of rows.
    pub fn count(&self) -> usize
        ensures { result ≡ length self.now.rows }
    {
        self.count
    }

    /// Puts a row of these terms behind the others. A row is asked to be free, and the terms to fit the width.
    pub fn push_row(&mut self, terms: &[Term<V>])
        requires free { length self.old.rows < self.old.room }
        requires fits { length terms.now ≤ self.old.width }
        ensures rows { self.new.rows ≡ self.old.rows ++ terms.now ∷ [] }
        ensures room { self.new.room ≡ self.old.room }
        ensures width { self.new.width ≡ self.old.width }
        ensures fit { AllFit self.old → AllFit self.new }
    {
        self.width = self.width.min(self.kept.room());
        keep_apart(&mut self.rows, &mut self.kept, &mut self.place, self.count);
        self.kept.refill(terms);
        self.count += 1;
    }

    /// The terms of row `i`, for reading.
    pub fn row(&self, i: usize) -> &[Term<V>]
        requires { i < length self.now.rows }
        ensures { result.now ≡ row_at self.now i }
    {
        if i == self.place {
            self.kept.as_slice()
        } else {
            self.rows[i].as_slice()
        }
    }

    /// A view of row `i` for writing. `writes_back` says: once the view is given up, the store is as it was, but
    /// for row `i`, which is what the view then holds. `width`: as no call of `Row` changes a row's room, the width stays.
    pub fn row_mut(&mut self, i: usize) -> RowMut<'_, V>
        requires { i < length self.old.rows }
        ensures* writes_back { sem 𝓛 (follows (the_row V.row) (row_type V.row)
            self.entry.ghost_name result.ghost_name (with_row self.old i)) }
        ensures terms { result.now.terms ≡ row_at self.old i }
        ensures room { self.old.width ≤ result.now.room }
        ensures width { KeepsWidth self.old i result.now.room }
    {
        self.width = self.width.min(self.kept.room());
        keep_apart(&mut self.rows, &mut self.kept, &mut self.place, i);
        &mut self.kept
    }

    /// Rows `i` and `j` for reading beside a view of row `k` for writing. The three are asked to differ.
    /// `writes_back` and `width` say of row `k` what `row_mut` says: the store is as it was, but for row `k`, which
    /// is what the view then holds, and the width stays.
    pub fn merge_mut(
        &mut self,
        i: usize,
        j: usize,
        k: usize,
    ) -> (&[Term<V>], &[Term<V>], RowMut<'_, V>)
        requires rows { (i < length self.old.rows) × ((j < length self.old.rows) × (k < length self.old.rows)) }
        requires written { (k ≢ i) × (k ≢ j) }
        requires read { i ≢ j }
        ensures* writes_back { sem 𝓛 (follows (the_row V.row) (row_type V.row)
            self.entry.ghost_name result.2.ghost_name (with_row self.old k)) }
        ensures left { result.0.now ≡ row_at self.old i }
        ensures right { result.1.now ≡ row_at self.old j }
        ensures terms { result.2.now.terms ≡ row_at self.old k }
        ensures room { self.old.width ≤ result.2.now.room }
        ensures width { KeepsWidth self.old k result.2.now.room }
    {
        self.width = self.width.min(self.kept.room());
        keep_apart(&mut self.rows, &mut self.kept, &mut self.place, k);
        let others = &self.rows;
        let left = others[i].as_slice();
        let right = others[j].as_slice();
        (left, right, &mut self.kept)
    }

    /// Exchanges rows `i` and `k`, without moving their terms; all other rows stay.
    pub fn swap_rows(&mut self, i: usize, k: usize)
        requires { (i < length self.old.rows) × (k < length self.old.rows) }
        ensures rows { self.new.rows ≡ swap self.old.rows i k }
        ensures room { self.new.room ≡ self.old.room }
        ensures width { self.new.width ≡ self.old.width }
        ensures fit { AllFit self.old → AllFit self.new }
    {
        self.width = self.width.min(self.kept.room());
        keep_apart(&mut self.rows, &mut self.kept, &mut self.place, i);
        self.rows.swap(i, k);
        self.place = k;
    }
}

/// That many empty rows, each with room for `width` terms.
fn empty_rows<V: Copy>(alloc: Global, rows: usize, width: usize) -> Result<Vec<Row<V>>, AllocError>
    ensures { IfOk result (λ list. (length list.items ≡ rows) × AllHaveRoom width list.items) }
{
    let mut list = Vec::with_capacity(alloc, rows)?;
    for _row in 0..rows {
        list.push_reserved(Row::with_room(alloc, width)?);
    }
    Ok(list)
}
