// Governors: which open call a use stands in as a child, and what that says of the use's level.
ghost use Rattle.std.specs.Prelude.{◌≡◌, ◌<◌, ◌≤◌, ◌-◌, IfSome, suc};
ghost use Rattle.semantics.specs.Numbers.{most_nesting};
ghost use Rattle.semantics.specs.Uses.{minimum_of};
ghost use Rattle.run_model.specs.Rows as model;
ghost use Rattle.run_model.specs.Rows.{row_of};
ghost use Rattle.calls.specs.Table.{governor_in, governor_row, with_stored_in};

use crate::openings::is_body;
use crate::rows::{ASSOCIATIVITY, CHILD, LEVEL, ROW_COUNT, START};
use crate::{Rows, RowsMut};
use book::Associativity;

// What the governor of a use says: the minimum, or, for a child at the governor's own start, the governor's row.
#[derive(Clone, Copy)]
pub enum Governor {
    Minimum(usize),
    SameStart(usize),
}

fn minimum_of(associativity: Associativity, level: u32) -> usize
    ensures { result ≡ minimum_of associativity level }
{
    match associativity {
        Associativity::Left | Associativity::None => level as usize + 1,
        Associativity::Right => level as usize,
        Associativity::Both => 0,
    }
}

impl<'a> Rows<'a> {
    // The call of a row is open and of the nonterminal, and its current child begins at the place.
    #[tactic(auto, unfolding(run_model::specs::Rows::governs))]
    fn governs(&self, row: usize, nonterminal: u32, at: u32) -> bool
        requires { row ≤ most_nesting }
        ensures { result ≡ model.governs (row_of self.now row) nonterminal at }
    {
        self.is_live(row) && self.nonterminal_of(row) == nonterminal && self.get(row, CHILD) == at
    }

    // The newest row above a row that governs, up to where a scope begins.
    #[tactic(auto, using(crate::specs::CallLaws::seeking))]
    fn newest_governor(&self, row: usize, nonterminal: u32, at: u32) -> Option<usize>
        requires { row ≤ most_nesting }
        ensures row { governor_row result ≡
            model.newest_governor self.now nonterminal at (most_nesting - row) (suc row) }
        ensures in_table { IfSome result (λ g. g ≤ most_nesting) }
    {
        for above in row + 1..ROW_COUNT {
            if self.governs(above, nonterminal, at) {
                return Some(above);
            }
            if self.begins_scope(above) {
                return None;
            }
        }
        None
    }

    // The governor of a use of the nonterminal at a place, in a row and with a binder.
    #[tactic(auto, using(crate::specs::CallLaws::governing))]
    pub fn governor_of(&self, row: usize, binder: u32, nonterminal: u32, at: u32) -> Governor
        requires { row ≤ most_nesting }
        ensures { governor_in result ≡ model.governor_of self.now row binder nonterminal at }
    {
        if is_body(binder) {
            return Governor::Minimum(0);
        }
        let Some(governor) = self.newest_governor(row, nonterminal, at) else {
            return Governor::Minimum(0);
        };
        if self.get(governor, START) == at {
            return Governor::SameStart(governor);
        }
        let associativity = sets::associativity_of(self.get(governor, ASSOCIATIVITY));
        Governor::Minimum(minimum_of(associativity, self.get(governor, LEVEL)))
    }
}

impl<'a> RowsMut<'a> {
    ghost use Rattle.calls.specs.Lent.{table_in, SameSlice};

    // What a row found are the parses that its governor has stored, filtered; the governor is asked.
    #[tactic(auto, using(crate::specs::SettlingLaws::stored_law))]
    pub fn take_stored(&mut self, row: usize, governor: usize)
        requires { (row < governor) × (governor ≤ most_nesting) }
        ensures { (table_in self.new ≡ with_stored_in (table_in self.old) row governor) × SameSlice self.old self.new }
    {
        self.put_asked(governor);
        self.put_kept(row, governor);
        self.end_call(row);
    }
}
