// The table of rows in a shared slice. This file and rows/parses.rt read the slice, rows_mut.rt and rows_mut/parses.rt
// write it, and no others.
ghost use Rattle.std.specs.Prelude.{◌≡◌, ◌<◌, ◌≤◌, eqb, length};
ghost use Rattle.semantics.specs.Numbers.{most_nesting};
ghost use Rattle.run_model.specs.Rows.{row_of};
ghost use Rattle.calls.specs.Table.{HasTable, table, row_count, field_count, field_of};

mod parses;

use sets::SET_SIZE;
use std::marker::Model;

// "nesting beyond 200" is a limit; so the outermost call has this row
pub const MOST_NESTING: usize = 200;

// a row for each level of nesting left, 0 too
pub(crate) const ROW_COUNT: usize = MOST_NESTING + 1;

// the numbers of the table
pub const ROWS_SIZE: usize = ROW_COUNT * ROW_SIZE;

// The numbers of a row. The slice holds numbers alone, so live and asked are 1 or 0, as `Row` of run_model has them.
pub(crate) const LIVE: usize = 0;

pub(crate) const NONTERMINAL: usize = 1;

pub(crate) const BINDER: usize = 2;

pub(crate) const START: usize = 3;

pub(crate) const LEVEL: usize = 4;

pub(crate) const ASSOCIATIVITY: usize = 5;

pub(crate) const CHILD: usize = 6;

pub(crate) const ASKED: usize = 7;

pub(crate) const KIND: usize = 8;

pub(crate) const PLACE: usize = 9;

pub(crate) const SIZE: usize = 10;

// where its sets begin
pub(crate) const STORED_SET: usize = 11;

pub(crate) const RUN_SET: usize = STORED_SET + SET_SIZE;

pub(crate) const ROW_SIZE: usize = RUN_SET + SET_SIZE;

// The table of a shared slice. In a contract it is the list of its rows.
#[derive(Drop)]
pub struct Rows<'a> {
    numbers: &'a [u32],
}

impl<'a> Model for Rows<'a> {
    ghost use Rattle.std.specs.Prelude.{List};
    ghost use Rattle.run_model.specs.Rows.{Row};

    ghost Value = { List Row };

    ghost use Rattle.calls.specs.View.{rows_view, IsRows};

    ghost view = { rows_view };

    ghost invariant = { IsRows };
}

impl<'a> Rows<'a> {
    // The table that a slice holds, whatever its numbers are.
    pub fn new(numbers: &'a [u32]) -> Rows<'a>
        requires { HasTable numbers.now }
        ensures { result ≡ table numbers.now }
    {
        Rows { numbers }
    }

    // How many rows it has: one for each level of nesting left, 0 too.
    #[tactic(auto, using(crate::specs::TableLaws::table_length))]
    pub fn len(&self) -> usize
        ensures { (result ≡ length self.now) × (result ≡ row_count) }
    {
        // so that the proof has the invariant
        let _ = &self.numbers;
        ROW_COUNT
    }

    // A number of a row.
    #[tactic(auto, using(crate::specs::TableLaws::table_get))]
    pub(crate) fn get(&self, row: usize, column: usize) -> u32
        requires { (row ≤ most_nesting) × (column < field_count) }
        ensures { result ≡ field_of column (row_of self.now row) }
    {
        self.numbers[row * ROW_SIZE + column]
    }

    // A number of a row, or 0 behind the table.
    #[tactic(auto, using(crate::specs::TableLaws::any_number))]
    pub(crate) fn number(&self, row: usize, column: usize) -> u32
        requires { column < field_count }
        ensures number { result ≡ field_of column (row_of self.now row) }
        ensures levels { length self.now ≡ row_count }
    {
        let numbers = &self.numbers;
        if row <= MOST_NESTING {
            numbers[row * ROW_SIZE + column]
        } else {
            0
        }
    }

    // The call of a row is open.
    pub(crate) fn is_live(&self, row: usize) -> bool
        requires { row ≤ most_nesting }
        ensures { result ≡ eqb (row_of self.now row).live 1 }
    {
        self.get(row, LIVE) == 1
    }

    // A method for each column that other crates ask for: the columns are this crate's.
    pub fn nonterminal_of(&self, row: usize) -> u32
        requires { row ≤ most_nesting }
        ensures { result ≡ (row_of self.now row).nonterminal }
    {
        self.get(row, NONTERMINAL)
    }

    pub fn start_of(&self, row: usize) -> u32
        requires { row ≤ most_nesting }
        ensures { result ≡ (row_of self.now row).start }
    {
        self.get(row, START)
    }

    pub fn binder_of(&self, row: usize) -> u32
        requires { row ≤ most_nesting }
        ensures { result ≡ (row_of self.now row).binder }
    {
        self.get(row, BINDER)
    }
}
