// The third layer's call: a text read by a book. Document 01, "The answer".
//
// `read` (reader.rt) is that call. Its answer and both lists equal `answer_of` (specs/Answer.antt of the crate
// semantics) on every book, text, start, allowance and lists, and demand 3 holds of that answer and those lists: `Read`
// of specs/Promise.antt. `read_in` is the same with working memory that is lent, whatever it holds. Neither has a
// `requires`. Of two calls, by a book and its extension or under two allowances, specs/TwoCalls.antt says what stays.
//
// The crate relies on the promises of parser, transitions, calls, sets, cells, errors, characters and book and on the
// theorems of semantics and run_model, and assumes nothing. specs/ has the promise (Promise), what is said of two calls
// (TwoCalls), what the parts of the call equal (Reading), and laws: of the lists (ListLaws), of the call (ReadingLaws)
// and of two calls (TwoCallLaws).
#![tactic(auto)]

mod lists;
mod reader;
mod refusals;
mod whole;

pub use calls::ROWS_SIZE;
pub use reader::{Answer, read, read_in};
pub use refusals::{DIFFERENT_VALUES, HIGH_BYTE, MOST_UNITS, NO_PARSE, SHORT_LISTS};
