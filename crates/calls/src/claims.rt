// Claims: a call of a variable's nonterminal around a use, at the same place, takes the name there as a variable.
ghost use Rattle.std.specs.Prelude.{◌≡◌, ◌≤◌, ◌-◌, suc};
ghost use Rattle.semantics.specs.Numbers.{most_nesting};
ghost use Rattle.semantics.specs.Uses.{has_mark};
ghost use Rattle.run_model.specs.Rows as model;
ghost use Rattle.run_model.specs.Rows.{row_of};

use crate::Rows;
use crate::openings::is_body;
use crate::rows::ROW_COUNT;
use book::{Book, Mark};

fn is_variable(book: &Book, nonterminal: usize) -> bool
    ensures { result ≡ has_mark book.now 1 nonterminal }
{
    book.nonterminal(nonterminal).mark == Mark::Variable
}

impl<'a> Rows<'a> {
    // The call of a row is open and of mark 1, and begins at the place.
    #[tactic(auto, unfolding(run_model::specs::Rows::claims))]
    fn claims(&self, book: &Book, row: usize, at: u32) -> bool
        requires { row ≤ most_nesting }
        ensures { result ≡ model.claims book.now (row_of self.now row) at }
    {
        self.is_live(row)
            && self.start_of(row) == at
            && is_variable(book, self.nonterminal_of(row) as usize)
    }

    // A call above a row claims, up to where a scope begins. The walk is that of `newest_governor`; the model has a
    // definition of each, with another test and another result.
    #[tactic(auto, using(crate::specs::CallLaws::asking))]
    fn any_claims(&self, book: &Book, row: usize, at: u32) -> bool
        requires { row ≤ most_nesting }
        ensures { result ≡ model.any_claims book.now self.now at (most_nesting - row) (suc row) }
    {
        for above in row + 1..ROW_COUNT {
            if self.claims(book, above, at) {
                return true;
            }
            if self.begins_scope(above) {
                return false;
            }
        }
        false
    }

    // A call claims a use in a row and with a binder.
    pub fn claims_use(&self, book: &Book, row: usize, binder: u32, at: u32) -> bool
        requires { row ≤ most_nesting }
        ensures { result ≡ model.claims_use book.now self.now row binder at }
    {
        !is_body(binder) && self.any_claims(book, row, at)
    }
}
