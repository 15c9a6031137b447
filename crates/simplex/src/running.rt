// Good exchanges, one after the other.
ghost use Rattle.std.specs.Prelude.{◌≡◌, ◌↔◌, ◌≤◌, [], IsTrue, length, vec_capacity};
ghost use Rattle.tableau.specs.Trails.{IsAfter};
ghost use Rattle.simplex.specs.Choices.{IsChoice, StopsAfter};
ghost use Rattle.simplex.specs.Givens.{given_of};
ghost use Rattle.simplex.specs.States.{tableau_of};

use crate::choice::Choice;
use crate::table::Tableau;
use numbers::Narrow;
use tableau::Exchange;

/// Makes good exchanges, up to the budget of them, and puts them behind the trail. It answers why there is no further one: an
/// exchange that is good is answered only where the budget is spent.
pub(crate) fn run<W: Narrow>(
    tableau: &mut Tableau<'_, W>,
    trail: &mut Vec<Exchange>,
    budget: u32,
) -> Choice
    requires none { trail.old.items ≡ [] }
    requires start { IsAfter (given_of tableau.old.program) [] (tableau_of W.meaning tableau.old) }
    requires room { budget ≤ vec_capacity trail.old }
    ensures program { tableau.new.program ≡ tableau.old.program }
    ensures trail { IsAfter (given_of tableau.old.program) trail.new.items (tableau_of W.meaning tableau.new) }
    ensures budget { length trail.new.items ≤ budget }
    ensures choice { IsChoice W.greatest (tableau_of W.meaning tableau.new) result }
    ensures spent { StopsAfter budget (length trail.new.items) result }
{
    while !is_spent(trail, budget) {
        let choice = tableau.choose();
        let Choice::Good(swap) = choice else {
            return choice;
        };
        match tableau.exchange(swap) {
            Ok(()) => trail.push_reserved(swap),
            Err(op) => return Choice::Wide(op),
        }
    }
    tableau.choose()
}

/// Whether as many exchanges as the budget were made.
fn is_spent(trail: &[Exchange], budget: u32) -> bool
    ensures { IsTrue result ↔ (budget ≤ length trail.now) }
{
    trail.len() >= budget as usize
}
