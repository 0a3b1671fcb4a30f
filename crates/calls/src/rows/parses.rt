// The sets of parses of a row, read: what its call has stored or found, and what its run has found.
ghost use Rattle.std.specs.Prelude.{◌≡◌, ◌≤◌, get_or, length};
ghost use Rattle.semantics.specs.Numbers.{most_nesting, most_parses};
ghost use Rattle.semantics.specs.Values.{absent_parse};
ghost use Rattle.semantics.specs.Run.{all_in};
ghost use Rattle.sets.specs.Sets.{parse_of};
ghost use Rattle.run_model.specs.Rows.{row_of};

use crate::rows::{ROW_SIZE, RUN_SET, Rows, STORED_SET};
use sets::Parse;

impl<'a> Rows<'a> {
    // How many parses a row found: 64 at most.
    #[tactic(auto, using(crate::specs::TableLaws::read_set, sets::specs::PlaceLaws::set_le))]
    pub fn parse_count(&self, row: usize) -> usize
        requires { row ≤ most_nesting }
        ensures count { result ≡ length (row_of self.now row).set }
        ensures few { result ≤ most_parses }
    {
        sets::size(self.numbers, row * ROW_SIZE + STORED_SET)
    }

    // The i-th parse that a row found, and a parse of zeros past the last.
    #[tactic(auto, using(crate::specs::TableLaws::read_set))]
    pub fn nth_parse(&self, row: usize, i: usize) -> Parse
        requires { row ≤ most_nesting }
        ensures { parse_of result ≡ get_or (row_of self.now row).set i absent_parse }
    {
        sets::nth_parse(self.numbers, row * ROW_SIZE + STORED_SET, i)
    }

    // The run added nothing to the row's set.
    #[tactic(auto, using(crate::specs::TableLaws::read_set, crate::specs::TableLaws::read_run))]
    pub(crate) fn run_in_set(&self, row: usize) -> bool
        requires { row ≤ most_nesting }
        ensures { result ≡ all_in (row_of self.now row).set (row_of self.now row).run }
    {
        sets::all_in(
            self.numbers,
            row * ROW_SIZE + STORED_SET,
            row * ROW_SIZE + RUN_SET,
        )
    }
}
