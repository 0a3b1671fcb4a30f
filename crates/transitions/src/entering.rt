// What a use of a nonterminal does up to its runs: one unit, the governor, stored parses, one level of nesting, a use
// of mark 2.
ghost use Rattle.std.specs.Prelude.{◌≡◌, ◌≤◌, ◌<◌};
ghost use Rattle.std.specs.Prelude.{Some};
ghost use Rattle.semantics.specs.Numbers.{nonterminal_wanted, most_nesting};
ghost use Rattle.semantics.specs.Uses.{has_mark};
ghost use Rattle.semantics.specs.Errors.{error};
ghost use Rattle.run_model.specs.Model.{claimed_rows};
ghost use Rattle.calls.specs.Lent.{table_in, SameSlice};
ghost use Rattle.errors.specs.Maps.{failure_of};
ghost use Rattle.transitions.specs.Results.{outcome_of, entered_of, done_with};
ghost use Rattle.transitions.specs.declared.outcomes.State as code;
ghost use Rattle.transitions.specs.Entering.{Stores};
ghost use Rattle.transitions.specs.LayerContracts.{Ready, Does, Opens, BeginsUse, identifies};

use crate::items::make;
use crate::outcomes::{Limit, State, spend};
use book::{Associativity, Book, DEFAULT_LEVEL, Mark};
use calls::{Governor, Rows, RowsMut};
use errors::Error;
use sets::Parse;

// A use of a nonterminal, up to its runs: it is to be run, with a minimum, or over, with a failure or none.
#[derive(Clone, Copy)]
pub enum Entered {
    Runs(usize),
    Over(Option<Error>),
}

// "With none, a call gives 11 at its start".
#[tactic(auto, unfolding(errors::specs::Failures::failed_call))]
fn no_parse(nonterminal: u32, at: u32) -> Option<Error>
    ensures { failure_of result ≡ Some (error at nonterminal_wanted nonterminal) }
{
    Some(errors::failed_call(at, nonterminal, None))
}

// "Re-entry at its start gives its stored parses, filtered; none is a failure".
fn stored(
    rows: &mut RowsMut,
    governor: usize,
    row: usize,
    nonterminal: u32,
    at: u32,
) -> Option<Error>
    requires { (row < governor) × (governor ≤ most_nesting) }
    ensures stores { (s : code.State) → Stores (table_in rows.old) (table_in rows.new) governor row nonterminal at s
        (done_with result s) }
    ensures slice { SameSlice rows.old rows.new }
{
    rows.take_stored(row, governor);
    if rows.shared().parse_count(row) == 0 {
        no_parse(nonterminal, at)
    } else {
        None
    }
}

// A variable that an open call claims, where a use stands in a row and with a binder.
fn claimed(book: &Book, text: &[u8], rows: &Rows, row: usize, binder: u32, at: u32) -> bool
    requires { row ≤ most_nesting }
    ensures { result ≡ claimed_rows book.now text.now rows.now row binder at }
{
    tokens::variable_at(book, text, rows, row, binder, at as usize).is_some()
        && rows.claims_use(book, row, binder, at)
}

// "`identifier_nonterminal`": the default level, Both.
fn run_identifier(
    book: &Book,
    text: &[u8],
    store: &mut [u32],
    rows: &mut RowsMut,
    row: usize,
    binder: u32,
    nonterminal: u32,
    at: u32,
    state: &mut State,
) -> Result<Option<Error>, Limit>
    requires { Ready book.now text.now row }
    ensures does { Does book.now text.now store.old store.new (table_in rows.old) (table_in rows.new) state.old
        (outcome_of result state.new) (identifies row binder nonterminal at) }
    ensures slice { SameSlice rows.old rows.new }
{
    rows.clear_set(row);
    rows.end_call(row);
    if claimed(book, text, &rows.shared(), row, binder, at) {
        return Ok(no_parse(nonterminal, at));
    }
    let Some(end) = tokens::free_end(book, text, at as usize) else {
        return Ok(no_parse(nonterminal, at));
    };
    let size = tokens::span_length(at as usize, end);
    let cell = make(text, store, cells::name(at, size as u32), state)?;
    rows.put_one(
        row,
        Parse {
            rest: end as u32,
            level: DEFAULT_LEVEL as u32,
            associativity: Associativity::Both,
            value: cell,
        },
    );
    Ok(None)
}

fn is_identifier(book: &Book, nonterminal: u32) -> bool
    ensures { result ≡ has_mark book.now 2 nonterminal }
{
    book.nonterminal(nonterminal as usize).mark == Mark::Identifier
}

// One level of nesting, if one is left; then a use of mark 2, or the runs.
fn open(
    book: &Book,
    text: &[u8],
    store: &mut [u32],
    rows: &mut RowsMut,
    row: usize,
    binder: u32,
    nonterminal: u32,
    at: u32,
    minimum: usize,
    state: &mut State,
) -> Result<Entered, Limit>
    requires { Ready book.now text.now row }
    ensures opens { Opens book.now text.now store.old store.new (table_in rows.old) (table_in rows.new) row binder
        nonterminal at minimum state.old (entered_of result state.new) }
    ensures slice { SameSlice rows.old rows.new }
{
    if row == 0 {
        return Err(Limit::TooDeep);
    }
    if is_identifier(book, nonterminal) {
        let failure = run_identifier(book, text, store, rows, row, binder, nonterminal, at, state)?;
        return Ok(Entered::Over(failure));
    }
    Ok(Entered::Runs(minimum))
}

// One unit; the governor; its stored parses, or one level of nesting.
pub fn begin_use(
    book: &Book,
    text: &[u8],
    store: &mut [u32],
    rows: &mut RowsMut,
    row: usize,
    binder: u32,
    nonterminal: u32,
    at: u32,
    state: &mut State,
) -> Result<Entered, Limit>
    requires { Ready book.now text.now row }
    ensures begins { BeginsUse book.now text.now store.old store.new (table_in rows.old) (table_in rows.new) row binder
        nonterminal at state.old (entered_of result state.new) }
    ensures slice { SameSlice rows.old rows.new }
{
    spend(state)?;
    let governor = rows.shared().governor_of(row, binder, nonterminal, at);
    match governor {
        Governor::SameStart(governor) => {
            let failure = stored(rows, governor, row, nonterminal, at);
            Ok(Entered::Over(failure))
        }
        Governor::Minimum(minimum) => open(
            book,
            text,
            store,
            rows,
            row,
            binder,
            nonterminal,
            at,
            minimum,
            state,
        ),
    }
}
