// Left recursion: a call that meets itself at its own start gets the parses that it has stored so far, and is run again
// until a run adds none.
//
// `E = E + E | number` on `1+2`: the first run of E at 0 meets E at 0, which has stored nothing, so that only `number`
// gives a parse, `1`. The call's parses were asked for, so `1` is stored, and a second run finds `1+2` through it. A
// third finds nothing new, and the call is over.
ghost use Rattle.calls.specs.Lent.{table_in, SameSlice};
ghost use Rattle.transitions.specs.Results.{outcome_of};
ghost use Rattle.transitions.specs.LayerContracts.{Ready, Does};
ghost use Rattle.parser.specs.Cycle.{CanRun, runs_again, runs_call, enters};

use crate::parser::one_run;
use book::Book;
use calls::RowsMut;
use errors::Error;
use transitions::{Entered, Limit, RunEnd, State, after_first, after_round, begin_use};

// Each run but the last adds a parse, of which a set has at most 64.
const MOST_ROUNDS: usize = 65;

// "it is run again until a run fails or adds nothing".
#[cycle(descent)]
fn rounds(
    book: &Book,
    text: &[u8],
    store: &mut [u32],
    rows: &mut RowsMut,
    row: usize,
    minimum: usize,
    state: &mut State,
) -> Result<Option<Error>, Limit>
    requires { CanRun book.now text.now row }
    ensures does { Does book.now text.now store.old store.new (table_in rows.old) (table_in rows.new) state.old
        (outcome_of result state.new) (runs_again row minimum) }
    ensures slice { SameSlice rows.old rows.new }
{
    for _round in 0..MOST_ROUNDS {
        let outcome = one_run(book, text, store, rows, row, minimum, state);
        match after_round(rows, row, outcome)? {
            RunEnd::Over(failure) => return Ok(failure),
            RunEnd::Again => {}
        }
    }
    Err(Limit::TooManyParses)
}

// A first run, and more if it asked for its own parses.
#[cycle(descent)]
fn call(
    book: &Book,
    text: &[u8],
    store: &mut [u32],
    rows: &mut RowsMut,
    row: usize,
    binder: u32,
    nonterminal: u32,
    at: u32,
    minimum: usize,
    state: &mut State,
) -> Result<Option<Error>, Limit>
    requires { CanRun book.now text.now row }
    ensures does { Does book.now text.now store.old store.new (table_in rows.old) (table_in rows.new) state.old
        (outcome_of result state.new) (runs_call row binder nonterminal at minimum) }
    ensures slice { SameSlice rows.old rows.new }
{
    rows.open_call(row, binder, nonterminal, at);
    let outcome = one_run(book, text, store, rows, row, minimum, state);
    match after_first(rows, row, outcome)? {
        RunEnd::Over(failure) => Ok(failure),
        RunEnd::Again => rounds(book, text, store, rows, row, minimum, state),
    }
}

// A use of a nonterminal at a skipped place, in a row and with a binder: one unit, the governor, then one level of
// nesting. Its parses are what the row found.
#[cycle(descent)]
pub fn enter(
    book: &Book,
    text: &[u8],
    store: &mut [u32],
    rows: &mut RowsMut,
    row: usize,
    binder: u32,
    nonterminal: u32,
    at: u32,
    state: &mut State,
) -> Result<Option<Error>, Limit>
    requires { Ready book.now text.now row }
    ensures does { Does book.now text.now store.old store.new (table_in rows.old) (table_in rows.new) state.old
        (outcome_of result state.new) (enters row binder nonterminal at) }
    ensures slice { SameSlice rows.old rows.new }
{
    match begin_use(book, text, store, rows, row, binder, nonterminal, at, state)? {
        Entered::Over(failure) => Ok(failure),
        Entered::Runs(minimum) => call(
            book,
            text,
            store,
            rows,
            row,
            binder,
            nonterminal,
            at,
            minimum,
            state,
        ),
    }
}
