// A row in the making.
ghost use Rattle.std.specs.Prelude.{◌≡◌, ◌+◌, ◌<◌, ◌≤◌, [], ◌∷◌, ◌++◌, Some, length, IfOk};
ghost use Rattle.road_types.specs.WellFormed.{IsCounted};
ghost use Rattle.road_types.specs.Columns.{column_number};
ghost use Rattle.road_types.specs.RoadPrograms.{term_in, terms_of};
ghost use Rattle.form_rows.specs.FormRows.{Grew};

use road_types::{Column, Road, column_of};
use std::alloc::{AllocError, Global};
use std::marker::Model;
use term_store::{Rows, Term};

/// The most entries that a row of a road's program is made of.
const MOST_ENTRIES: usize = 80;

/// The terms of a row in the making, in the order in which they were added; there is room for 80.
#[derive(Debug, Drop)]
pub struct FormRow {
    terms: Vec<Term<i64>>,
}

impl Model for FormRow {
    ghost use Rattle.std.specs.Prelude.{ℤ, List, ◌≤◌, vec_capacity};
    ghost use Rattle.term_store.specs.declared.term.Term.{Term};

    ghost Value = { List (Term ℤ) };

    ghost view = { λ r. r.terms.items };

    ghost invariant = { λ r. 80 ≤ vec_capacity r.terms };
}

impl FormRow {
    /// A row without terms. `AllocError` where its memory can't be had; nothing else takes any.
    pub fn new(alloc: Global) -> Result<FormRow, AllocError>
        ensures { IfOk result (λ row. row ≡ []) }
    {
        let terms = Vec::with_capacity(alloc, MOST_ENTRIES)?;
        Ok(FormRow { terms })
    }

    /// Takes all terms out.
    pub fn clear(&mut self)
        ensures { self.new ≡ [] }
    {
        self.terms.clear();
    }

    /// Adds a coefficient at the column of a kind; nothing where it is 0 or the road has no such column.
    pub fn add(&mut self, road: &Road, kind: Column, coefficient: i64)
        requires counted { IsCounted road.now }
        requires room { length self.old < 80 }
        ensures terms { self.new ≡ self.old ++ term_in (column_number road.now kind) coefficient }
        ensures few { length self.new ≤ length self.old + 1 }
    {
        if let Some(number) = column_of(road, kind) {
            self.add_term(number, coefficient);
        }
    }

    /// Adds coefficients at the columns of kinds, in this order.
    pub fn add_all(&mut self, road: &Road, entries: &[(Column, i64)])
        requires counted { IsCounted road.now }
        requires room { length self.old + length entries.now ≤ 80 }
        ensures terms { self.new ≡ self.old ++ terms_of road.now entries.now }
        ensures few { length self.new ≤ length self.old + length entries.now }
    {
        for (kind, coefficient) in entries {
            self.add(road, *kind, *coefficient);
        }
    }

    /// Adds a term in a numbered column; nothing where the coefficient is 0.
    fn add_term(&mut self, number: usize, coefficient: i64)
        requires number { number ≤ 2000 }
        requires room { length self.old < 80 }
        ensures terms { self.new ≡ self.old ++ term_in (Some number) coefficient }
        ensures few { length self.new ≤ length self.old + 1 }
    {
        if coefficient != 0 {
            self.terms.push_reserved(Term {
                column: number as u32,
                value: coefficient,
            });
        }
    }

    /// Puts the terms behind the rows of a store, as a row.
    pub fn put(&self, rows: &mut Rows<i64>)
        requires free { length rows.old.rows < rows.old.room }
        requires fits { length self.now ≤ rows.old.width }
        ensures { Grew rows.old rows.new (self.now ∷ []) }
    {
        rows.push_row(self.terms.as_slice());
    }

    /// The terms.
    pub fn as_slice(&self) -> &[Term<i64>]
        ensures { result.now ≡ self.now }
    {
        self.terms.as_slice()
    }
}
