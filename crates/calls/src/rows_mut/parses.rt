// What is done to the sets of parses of a row. The two are cleared by a method each, as the model has a definition for
// each (`with_set`, `with_run`).
ghost use Rattle.std.specs.Prelude.{[], ◌∷◌, ◌<◌, ◌≤◌};
ghost use Rattle.semantics.specs.Numbers.{most_nesting};
ghost use Rattle.semantics.specs.Run.{kept};
ghost use Rattle.sets.specs.Sets.{parse_of};
ghost use Rattle.run_model.specs.Rows as model;
ghost use Rattle.run_model.specs.Rows.{row_of, use_at, with_set};

use crate::rows::{ASSOCIATIVITY, LEVEL, ROW_SIZE, RUN_SET, STORED_SET};
use crate::rows_mut::RowsMut;
use sets::Parse;

impl<'a> RowsMut<'a> {
    ghost use Rattle.calls.specs.Lent.{table_in, Changes, AddsRun, JoinsRun};

    #[tactic(auto, using(crate::specs::TableLaws::table_set))]
    pub fn clear_set(&mut self, row: usize)
        requires { row ≤ most_nesting }
        ensures { Changes self.old self.new row (with_set []) }
    {
        sets::clear(self.numbers, row * ROW_SIZE + STORED_SET);
    }

    #[tactic(auto, using(crate::specs::TableLaws::table_run))]
    pub fn clear_run(&mut self, row: usize)
        requires { row ≤ most_nesting }
        ensures { Changes self.old self.new row (model.with_run []) }
    {
        sets::clear(self.numbers, row * ROW_SIZE + RUN_SET);
    }

    // A row's set becomes one parse.
    #[tactic(auto, using(crate::specs::TableLaws::set_one))]
    pub fn put_one(&mut self, row: usize, p: Parse)
        requires { row ≤ most_nesting }
        ensures { Changes self.old self.new row (with_set (parse_of p ∷ [])) }
    {
        sets::clear(self.numbers, row * ROW_SIZE + STORED_SET);
        sets::append(self.numbers, row * ROW_SIZE + STORED_SET, p);
    }

    // The row's set becomes what its run found.
    #[tactic(auto, using(crate::specs::TableLaws::table_set, crate::specs::TableLaws::read_run))]
    pub(crate) fn copy_run(&mut self, row: usize)
        requires { row ≤ most_nesting }
        ensures { Changes self.old self.new row model.copied }
    {
        sets::copy(
            self.numbers,
            row * ROW_SIZE + STORED_SET,
            row * ROW_SIZE + RUN_SET,
        );
    }

    // A parse joins the run's set; false for a 65th, as in sets.
    pub fn add_run(&mut self, row: usize, p: Parse) -> bool
        requires { row ≤ most_nesting }
        ensures { AddsRun result self.old self.new row (parse_of p) }
    {
        sets::add(self.numbers, row * ROW_SIZE + RUN_SET, p)
    }

    // The run's set joins the row's set; false for a 65th.
    pub(crate) fn add_run_to_set(&mut self, row: usize) -> bool
        requires { row ≤ most_nesting }
        ensures { JoinsRun result self.old self.new row }
    {
        sets::add_all(
            self.numbers,
            row * ROW_SIZE + STORED_SET,
            row * ROW_SIZE + RUN_SET,
        )
    }

    // The set of row `into` becomes what the use of row `from` keeps of that row's set.
    #[tactic(auto, using(crate::specs::TableLaws::kept_law))]
    pub(crate) fn put_kept(&mut self, into: usize, from: usize)
        requires { (into < from) × (from ≤ most_nesting) }
        ensures { Changes self.old self.new into (with_set (kept (use_at (row_of (table_in self.old) from))
            (row_of (table_in self.old) from).set)) }
    {
        let associativity = sets::associativity_of(self.shared().get(from, ASSOCIATIVITY));
        let level = self.shared().get(from, LEVEL);
        sets::put_kept(
            self.numbers,
            into * ROW_SIZE + STORED_SET,
            from * ROW_SIZE + STORED_SET,
            associativity,
            level,
        );
    }
}
