// Calls, variants and steps: one cycle of calls, `enter` (left_recursion.rt) at its head. Document 01, "The run".
//
// Each function of the cycle equals a part of the model of the run in the crate run_model, on the table of rows and the
// cells that the lent store holds (`Does` and `Continues` of specs/LayerContracts.antt of the crate transitions); so
// what `enter` gives at row 200 is what the definition of the run gives (`rows_run` of run_model). The contracts ask
// that row numbers are at most 200 and that the numbers of the book and the text fit into 32 bits, which an accepted
// book's do (`accepted_fits` of transitions). They hold whatever the rows held.
//
// The book, the text, the store and the rows are parameters: what only reads the rows, or asks for no store, says so.
// What is left of the allowance and the number of cells are lent as a `State`; a limit ends a part as its `Err`.
//
// What ends the cycle: the levels of nesting left fall from a call to the steps of its variants, from a parse to what
// follows it and from a declared name to what stands behind it, and on one level the steps left fall.
//
// The crate relies on the promises of transitions, calls, errors and book and on the model of run_model, and assumes
// nothing. specs/ has what the functions equal (Cycle) and the laws by which they do.
#![tactic(auto)]

mod left_recursion;
mod names;
mod parser;

pub use left_recursion::enter;
