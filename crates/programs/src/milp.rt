// A program in memory, and the view of one of its rows.
ghost use Rattle.std.specs.Prelude.{◌≡◌, length};
ghost use Rattle.algebra.specs.Numbered.{IsNumber};
ghost use Rattle.programs.specs.Programs.{Program, bounds_at, column_count, cost_at, row_at, row_count, rows_of};
ghost use Rattle.programs.specs.Limits.{IsWithinLimits};

use std::marker::Model;
use term_store::{Rows, Side, Term};

/// A linear program over whole numbers, of at most 600 rows, 1,000 columns and the weight 2^46.
/// Contracts see it as its `Program`; rows and columns are numbered from 1.
#[derive(Debug, Drop)]
pub struct Milp {
    rows: Rows<i64>,
    sides: Vec<Side>,
    rights: Vec<i64>,
    bounds: Vec<(i64, i64)>,
    costs: Vec<i64>,
}

impl Model for Milp {
    ghost use Rattle.std.specs.Prelude.{◌≡◌, length};
    ghost use Rattle.programs.specs.Programs.{Program, rows_of};
    ghost use Rattle.programs.specs.Limits.{IsWithinLimits};

    ghost Value = { Program };

    ghost view = { λ m. record {
      bounds = m.bounds.items;
      costs = m.costs.items;
      rows = rows_of m.rows.rows m.sides.items m.rights.items;
    } };

    ghost invariant = { λ m. (length m.sides.items ≡ length m.rows.rows)
        × ((length m.rights.items ≡ length m.rows.rows) × IsWithinLimits (record {
          bounds = m.bounds.items;
          costs = m.costs.items;
          rows = rows_of m.rows.rows m.sides.items m.rights.items;
        })) };
}

/// A view of one row of a program, for reading.
#[derive(Debug, Drop)]
pub struct RowView<'a> {
    terms: &'a [Term<i64>],
    side: Side,
    right: i64,
}

impl<'a> Model for RowView<'a> {
    ghost use Rattle.programs.specs.Programs.{ProgramRow};

    ghost Value = { ProgramRow };

    ghost view = { λ r. record {
      terms = r.terms.now;
      side = r.side;
      right = r.right;
    } };
}

impl Milp {
    /// The program of these rows, sides, right sides, bounds and costs. As many sides and right sides as rows are
    /// asked for, and that the program is within the limits. It takes no memory.
    pub fn new(
        rows: Rows<i64>,
        sides: Vec<Side>,
        rights: Vec<i64>,
        bounds: Vec<(i64, i64)>,
        costs: Vec<i64>,
    ) -> Milp
        requires sides { length sides.items ≡ length rows.rows }
        requires rights { length rights.items ≡ length rows.rows }
        requires limits { IsWithinLimits (record {
          bounds = bounds.items;
          costs = costs.items;
          rows = rows_of rows.rows sides.items rights.items;
        }) }
        ensures { result ≡ record {
          bounds = bounds.items;
          costs = costs.items;
          rows = rows_of rows.rows sides.items rights.items;
        } }
    {
        Milp {
            rows,
            sides,
            rights,
            bounds,
            costs,
        }
    }

    /// The number of rows.
    pub fn rows(&self) -> usize
        ensures count { result ≡ row_count self.now }
        ensures limits { IsWithinLimits self.now }
    {
        self.rows.count()
    }

    /// The number of columns.
    pub fn columns(&self) -> usize
        ensures count { result ≡ column_count self.now }
        ensures limits { IsWithinLimits self.now }
    {
        self.bounds.len()
    }

    /// Row `i`, numbered from 1.
    pub fn row(&self, i: usize) -> RowView<'_>
        requires { IsNumber i (row_count self.now) }
        ensures row { result ≡ row_at self.now i }
        ensures limits { IsWithinLimits self.now }
    {
        RowView {
            terms: self.rows.row(i - 1),
            side: self.sides[i - 1],
            right: self.rights[i - 1],
        }
    }

    /// The least and the greatest bound of column `j`, numbered from 1.
    pub fn bounds(&self, j: usize) -> (i64, i64)
        requires { IsNumber j (column_count self.now) }
        ensures { result ≡ bounds_at self.now j }
    {
        self.bounds[j - 1]
    }

    /// The cost of column `j`, numbered from 1.
    pub fn cost(&self, j: usize) -> i64
        requires { IsNumber j (column_count self.now) }
        ensures { result ≡ cost_at self.now j }
    {
        self.costs[j - 1]
    }
}

impl<'a> RowView<'a> {
    /// The terms, by rising column; columns are numbered from 1.
    pub fn terms(&self) -> &'a [Term<i64>]
        ensures { result.now ≡ self.now.terms }
    {
        self.terms
    }

    /// What the row asks of the sum of its terms.
    pub fn side(&self) -> Side
        ensures { result ≡ self.now.side }
    {
        self.side
    }

    /// The right side.
    pub fn right(&self) -> i64
        ensures { result ≡ self.now.right }
    {
        self.right
    }
}
