// The end of a run. A first run and a further one are two definitions of the model, which share `end_call` alone.
ghost use Rattle.std.specs.Prelude.{◌≤◌};
ghost use Rattle.semantics.specs.Numbers.{most_nesting};
ghost use Rattle.calls.specs.Table.{SettledFirst, SettledNext};

use crate::RowsMut;
use crate::rows::ASKED;

// How a run leaves its call.
#[derive(Clone, Copy)]
pub enum Settled {
    // with no parse
    Failed,
    // with the call's set whole
    Over,
    // with stored parses that a further run may add to
    Again,
    // with a 65th parse
    Full,
}

impl<'a> RowsMut<'a> {
    ghost use Rattle.calls.specs.Lent.{table_in, SameSlice};

    // After the first run: its set is the call's. "If a first run found parses and asked for the call's stored ones, ..
    // it is run again"
    #[tactic(auto, using(crate::specs::SettlingLaws::first_run))]
    pub fn settle_first(&mut self, row: usize) -> Settled
        requires { row ≤ most_nesting }
        ensures { SettledFirst result (table_in self.old) (table_in self.new) row × SameSlice self.old self.new }
    {
        self.copy_run(row);
        if self.shared().parse_count(row) == 0 {
            self.end_call(row);
            return Settled::Failed;
        }
        if self.shared().get(row, ASKED) == 1 {
            return Settled::Again;
        }
        self.end_call(row);
        Settled::Over
    }

    // After a further run: "until a run fails or adds nothing".
    #[tactic(auto, using(crate::specs::SettlingLaws::further_run))]
    pub fn settle(&mut self, row: usize) -> Settled
        requires { row ≤ most_nesting }
        ensures { SettledNext result (table_in self.old) (table_in self.new) row × SameSlice self.old self.new }
    {
        if self.shared().run_in_set(row) {
            self.end_call(row);
            Settled::Over
        } else if self.add_run_to_set(row) {
            Settled::Again
        } else {
            Settled::Full
        }
    }
}
