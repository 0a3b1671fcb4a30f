// The second layer: a rule book, checked and read by its fields. Document 01, "The book" and refusals 3 to 8 of "The
// answer".
//
// `check` and `check_into` equal `check_book` of specs/Check.antt on every list of bytes. `check_into` also fills an
// index, a lent slice of `INDEX_SIZE` numbers, and promises that the book which the index gives (`book_in` of
// specs/Index.antt) is the one of `check_book`. A `Book` is the bytes with the index. Each of its reading methods
// equals the field of that book, in constant time. No public function has a `requires`: a number that the book doesn't
// have gets a fixed answer, whatever the bytes and the index hold.
//
// The crate relies on the promises of `characters`, and assumes nothing. specs/ has the definitions (Numbers, Book,
// Check), the index (Index), and what a `Book` stands for (View).
#![tactic(auto)]

mod binders;
mod checking;
mod index;
mod limits;
mod names;
mod parts;
mod ranges;
mod reading;
mod records;
mod refusals;
mod sections;
mod spellings;

pub use checking::{check, check_into};
pub use index::INDEX_SIZE;
pub use limits::DEFAULT_LEVEL;
pub use names::StartingName;
pub use reading::Book;
pub use records::{Associativity, COMMA_LIST, MANY, Mark, Nonterminal, Step, Variant, step_number};
pub use refusals::{Fault, Refusal};
