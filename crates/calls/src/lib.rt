// The open calls, and what calls found, in a lent slice of numbers. Document 01, "The run".
//
// `Rows` is the table of 201 rows that a shared slice holds, one for each level of nesting, and `RowsMut` that of a
// slice lent to be written. A row's number is the levels of nesting left: the outermost call has row 200. A row is
// eleven numbers (live, nonterminal, binder, start, level, associativity, child, asked, and the kind, place and size of
// the name that is declared at the level) and two sets of parses: what the call has stored or found, and what the run
// at hand has found. Every slice of 105,525 numbers gives a table (`table` of specs/Table.antt), so nothing needs to be
// cleared: a row is written before it is read.
//
// A call's binder says what it has to do with openings that were read: 0, none is around it; 1, one is; n + 2, the call
// is the body behind one, and the n names that this declared stand in the n rows above its own.
//
// Each method of the two equals the definition of the crate run_model that its contract names (specs/Rows.antt and
// specs/Model.antt there), on the table, and asks at most that its row is one of it. Those of `RowsMut` change at most
// one row, `take_stored` two, and the table stays in its slice (`SameSlice` of specs/Lent.antt).
//
// The crate relies on the promises of characters, book, cells and sets and on the definitions of book, semantics and
// run_model, and assumes nothing. specs/ has the definitions (Table, Lent, Names) and laws.
#![tactic(auto)]

mod claims;
mod governors;
mod names;
mod open_calls;
mod openings;
mod rows;
mod rows_mut;
mod settling;

pub use governors::Governor;
pub use names::Declared;
pub use openings::{AROUND, OUTSIDE, body_binder};
pub use rows::{MOST_NESTING, ROWS_SIZE, Rows};
pub use rows_mut::RowsMut;
pub use settling::Settled;
