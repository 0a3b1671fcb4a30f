// The lowest layer: what a byte is, and what stands at a place of a text. Document 01, "Characters".
//
// Every public function has a contract that equates its answer with a definition in specs/, over every list of bytes
// and every place, a place beyond the end included. No public function has a `requires`. The crate relies on nothing
// but `std`, and assumes nothing.
//
// specs/ has the definitions (Classes, Skipping, Lexemes, Spelling) and, in files of their own, the laws that the
// layers above cite; and the words in which the contracts of all crates speak of a lent slice (Slices).
#![tactic(auto)]

mod classes;
mod lexemes;
mod skipping;
mod spelling;
mod table;

pub use classes::{Class, byte_at, class_of, is_of};
pub use lexemes::{Number, identifier_at, number_at};
pub use skipping::skip;
pub use spelling::{part, same_bytes, same_spelling};
