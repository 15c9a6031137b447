// A row that holds its terms in memory of its own, and the view through which it is written.
ghost use Rattle.std.specs.Prelude.{◌≡◌, ◌<◌, ◌≤◌, [], ◌∷◌, ◌++◌, length, slice_index_or, slice_set, IfOk};

use crate::term::Term;
use std::alloc::{AllocError, Global};
use std::marker::Model;

/// A row of terms, in their order, with room for a number of them that stays.
#[derive(Debug, Drop)]
pub struct Row<V> {
    terms: Vec<Term<V>>,
}

impl<V> Model for Row<V> {
    ghost use Rattle.std.specs.Prelude.{vec_capacity};
    ghost use Rattle.term_store.specs.HeldRow.{HeldRow, held_row_code};
    ghost use Rattle.term_store.specs.declared.term.Term.{Term};

    ghost Value = { HeldRow (Term V) };

    ghost view = { λ a. record { terms = a.terms.items; room = vec_capacity a.terms } };
}

/// A view of a row of `Rows` for writing; what it leaves behind is the row from then on.
pub type RowMut<'a, V> = &'a mut Row<V>;

impl<V: Copy> Row<V> {
    /// An empty row with room for that many terms.
    pub(crate) fn with_room(alloc: Global, room: usize) -> Result<Row<V>, AllocError>
        ensures { IfOk result (λ row. row ≡ record { terms = []; room = room }) }
    {
        let terms = Vec::with_capacity(alloc, room)?;
        Ok(Row { terms })
    }

    /// The number of terms.
    pub fn len(&self) -> usize
        ensures value { result ≡ length self.now.terms }
        ensures within { length self.now.terms ≤ self.now.room }
    {
        self.terms.len()
    }

    /// The terms, in their order.
    pub(crate) fn as_slice(&self) -> &[Term<V>]
        ensures { result.now ≡ self.now.terms }
    {
        self.terms.as_slice()
    }

    /// The number of terms that there is room for.
    pub(crate) fn room(&self) -> usize
        ensures { result ≡ self.now.room }
    {
        self.terms.capacity()
    }

    /// The term at place `p`, counted from 0.
    pub fn term(&self, p: usize) -> Term<V>
        requires { p < length self.now.terms }
        ensures { result ≡ slice_index_or self.now.terms p result }
    {
        self.terms[p]
    }

    /// Puts a term in place of the one at place `p`, counted from 0.
    pub fn set(&mut self, p: usize, t: Term<V>)
        requires { p < length self.old.terms }
        ensures terms { self.new.terms ≡ slice_set self.old.terms p t }
        ensures room { self.new.room ≡ self.old.room }
    {
        self.terms[p] = t;
    }

    /// Puts a term behind the others; the row's room is asked to be more than its length.
    pub fn push(&mut self, t: Term<V>)
        requires { length self.old.terms < self.old.room }
        ensures terms { self.new.terms ≡ self.old.terms ++ t ∷ [] }
        ensures room { self.new.room ≡ self.old.room }
    {
        self.terms.push_reserved(t);
    }

    /// Takes all terms out; the room stays.
    pub fn clear(&mut self)
        ensures terms { self.new.terms ≡ [] }
        ensures room { self.new.room ≡ self.old.room }
    {
        self.terms.clear();
    }

    /// Puts these terms in place of all that the row holds.
    pub(crate) fn refill(&mut self, terms: &[Term<V>])
        requires { length terms.now ≤ self.old.room }
        ensures terms { self.new.terms ≡ terms.now }
        ensures room { self.new.room ≡ self.old.room }
    {
        self.clear();
        for term in terms {
            self.push(*term);
        }
    }
}
