// The line for an answer: `value ` and the value, or `refused N place P kind K argument A line L column C`, and one
// line feed. Document 01, "Printing", with the columns of document 02, a, and the declared variables of document 02, d.
//
// The line is `line_bytes` of specs/Printing.antt, for every book, index, text, list of cells and answer, also for
// cells and answers that no run gives: what is no cell counts as absent. A value can be far longer than its cells,
// since a cell is printed wherever it is used. So nothing here counts past the room that the caller gives:
//
// - `line_length` tells how long the line is, or that it is longer than a limit;
// - `print` writes the whole line into a lent slice, or tells that it does not fit and writes nothing;
// - `print_part` writes the part of the line from a place on, as much as there is and fits: called with one place after
//   the other it gives a line of any length.
//
// Book, text and cells are given apart, as a caller has them: a struct of the three would only be made for the call.
//
// No public function has a `requires`. `line_length` is for a caller who makes room for the line first; `spelling`, the
// part of the text or of the book that a cell names, for one who prints values in a way of their own. What no theorem
// says: a call takes time in proportion to the room, with the place where the part begins, and to the text and the
// cells, whatever the value's length; and its calls nest at most 4,096 deep, a cell each.
//
// The answer is that of `run`. The crate relies on the promises of `characters`, `book` and `cells` and on the
// definitions of `semantics`, and assumes nothing. specs/ has the line (Printing), what the public functions
// answer (Lines), bytes laid into a slice (Laying) and what is printed of a cell (Cells); proofs/ has laws, and worked
// examples (Worked).
#![tactic(auto)]

mod cell;
mod laying;
mod line;
mod place;
mod value;

pub use cell::spelling;
pub use line::{line_length, print, print_part};
