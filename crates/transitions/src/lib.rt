// The parts of a run that call no other call: what a step, a variant and a call do before and after what they call.
// Document 01, "The run".
//
// Each function equals a part of the model of the run in the crate run_model (specs/Model.antt there), on the table
// that the rows give and on the cells that the store holds (`Held` of specs/Outcomes.antt); the contracts say so by the
// names of specs/LayerContracts.antt. Where the model runs what is left of a variant, a part that calls nothing says
// what the path does next, and promises that whatever does that gives what the model gives (specs/Steps.antt,
// specs/Entering.antt). The contracts ask only that row numbers are at most 200, and that the numbers of the book and
// the text fit into 32 bits (`Fit` of specs/Fit.antt).
//
// A part is lent the `State`, the units left and the number of cells, and gives a Result: the `Limit` that was met, or
// what it found, where a failure is an `Option<Error>`. What ends a path alone, a limit or a failure, is `Ended`.
// specs/Results.antt has the records that the laws speak of, and which one a Result and the state stand for.
//
// A row's number is the levels of nesting left, and so also the first row that is free.
//
// The crate relies on the promises of calls, sets, cells, tokens, errors, book and characters, and assumes nothing.
#![tactic(auto)]

mod choices;
mod entering;
mod items;
mod names;
mod next;
mod outcomes;
mod places;
mod runs;
mod stages;
mod steps;
mod variants;

pub use choices::{both_sides, first_side};
pub use entering::{Entered, begin_use};
pub use names::{Named, declare_name, no_names, open_body};
pub use next::{after_parse, next_of};
pub use outcomes::{
    Ended, Limit, NO_UNIT, State, TOO_DEEP, TOO_MANY_CELLS, TOO_MANY_NAMES, TOO_MANY_PARSES, spend,
};
pub use runs::{RunEnd, after_first, after_round};
pub use stages::{Doing, List, Names, Next, Progress, Reached, Stage};
pub use steps::{finish, take_step};
pub use variants::{after_variant, begin_child, begin_variant};
