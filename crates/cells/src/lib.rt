// The cells of a run: three numbers for each in a lent slice, equal ones once, with an index by which the cell equal to
// a wanted one is found without a look at all of them. Document 01, "The run", its last paragraph, and refusal 23.
//
// `make` promises (`Makes` of specs/Store.antt): where the store holds a list of cells (`Holds`), it gives what `make`
// of the definitions gives for that list, the number of the first equal cell, or of a new one, or the limit; and the
// store holds the list after it. `clear` makes any store of `STORE_SIZE` numbers hold no cells. Neither has a
// `requires`, and neither stores past those numbers. The numbers of a wanted cell come from a function for each form of
// cell; they are `numbers_of` it. The cells stand at the head of the store as document 01 numbers them
// (`stored_numbers` of specs/StoredLaws.antt).
//
// The crate relies on the promises of `characters` and on the definitions of `semantics`, and assumes nothing. specs/
// has the store and what it holds (Store), and laws.
#![tactic(auto)]

mod numbers;
mod store;

pub use numbers::{
    CHAIN_FORM, CellNumbers, DECLARED_FORM, DebruijnIndex, HALF, LIST_FORM, NAME_FORM, NUMBER_FORM,
    VARIABLE_FORM, VARIANT_FORM, VarIndex, absent, chain, declared, empty, list, name, number,
    variable, variant,
};
pub use store::{CELL_SIZE, CELLS_SIZE, MOST_CELLS, Made, STORE_SIZE, clear, make};
