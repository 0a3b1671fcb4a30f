// The table of rows in a slice that is lent to be written.
//
// In a contract `table_in` is the list of its rows, and `SameSlice` says that it lies in the slice in which it lay: so
// who lends a slice knows what it holds afterwards. A type with a model would hide which slice that is.
ghost use Rattle.std.specs.Prelude.{◌≡◌, ◌<◌, ◌≤◌};
ghost use Rattle.semantics.specs.Numbers.{most_nesting};
ghost use Rattle.calls.specs.Table.{HasTable, table, field_count, field};

mod parses;

use crate::rows::{ROW_SIZE, Rows};

// The table of a slice that is lent to be written.
#[derive(Drop)]
pub struct RowsMut<'a> {
    numbers: &'a mut [u32],
    ghost fits: { HasTable numbers.now },
}

impl<'a> RowsMut<'a> {
    ghost use Rattle.calls.specs.Lent.{table_in, slice_of, Changes};

    // The table that a slice holds, whatever its numbers are.
    pub fn new(numbers: &'a mut [u32]) -> RowsMut<'a>
        requires { HasTable numbers.old }
        ensures rows { table_in result ≡ table numbers.old }
        ensures slice { slice_of result ≡ numbers.entry.ghost_name }
    {
        RowsMut { numbers }
    }

    // The table to be read.
    pub fn shared(&self) -> Rows<'_>
        ensures { result ≡ table_in self.now }
    {
        Rows::new(self.numbers)
    }

    #[tactic(auto, using(crate::specs::TableLaws::table_field))]
    pub(crate) fn put(&mut self, row: usize, column: usize, x: u32)
        requires { (row ≤ most_nesting) × (column < field_count) }
        ensures { Changes self.old self.new row (field column x) }
    {
        self.numbers[row * ROW_SIZE + column] = x;
    }
}
