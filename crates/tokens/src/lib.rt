// What a step of the book takes at a place of the text, and its error where it takes nothing. Document 01, step kinds 0
// to 13, the lists of "Derivations", and "Errors".
//
// Every public function equals a definition of `semantics` (Tokens, Steps, Errors) on every book, text and place, a
// place beyond the end included; a scope is the one that the table of rows gives for a row's call, or for a use in a
// row and with a binder. specs/Maps.antt says what each struct and enum stands for. The functions that look for a name
// in the rows ask that the row is one of the table, and `declaration_at` that the text is within its limit; no other
// function has a `requires`. A place that is called `at` is skipped, one that is called `x` isn't; `place` is either.
//
// The crate relies on the promises of `characters`, `book`, `errors` and `calls` and on the definitions of `semantics`
// and `run_model`, and assumes nothing.
#![tactic(auto)]

mod declarations;
mod step_errors;
mod steps;
mod tokens;

pub use declarations::{Declaration, declaration_at};
pub use step_errors::{closing_error, step_error};
pub use steps::{After, Item, Taken, after_element, closed, closing_code, step_at};
pub use tokens::{Variable, free_end, span_length, variable_at};
