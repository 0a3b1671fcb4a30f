// A rule in files, and its line on standard output: the parts of the program read_rule. Document 01, "Printing".
//
// `answer_line` reads a text by a book, from start 0 with the allowance 1,000,000, writes the line of the answer and
// gives the answer, which equals `answer_of` on every book and text. The line goes out in parts, each a part of
// `line_bytes` by the contract of `print_part`: a value's line can be far longer than its text. `load` gives a file's
// bytes. Neither has a `requires`.
//
// The crate relies on the promises of `run`, `printing` and `book`, and on `fs` and `io` of std, whose contracts say
// nothing of what a file holds or of what is written.
#![tactic(auto)]

mod files;
mod output;

pub use files::{BOOK_ROOM, TEXT_ROOM, load};
pub use output::answer_line;
