// The call of document 01, "The answer": the refusals before the run, the run by `enter`, and the end.
//
// `read` keeps working memory of its own, 500,460 bytes; `read_in` is lent it, whatever it holds. Its contract says
// nothing of that memory at exit: it is no part of the answer, and the next call may find anything in it.
ghost use Rattle.std.specs.Prelude.{◌≡◌, nat_le, position};
ghost use Rattle.book.specs.Index.{book_in};
ghost use Rattle.book.specs.Numbers.{fault_number};
ghost use Rattle.semantics.specs.Numbers.{no_parse, first_high_byte};
ghost use Rattle.semantics.specs.Answer as answers;
ghost use Rattle.semantics.specs.Answer.{answer, answer_of};
ghost use Rattle.calls.specs.Lent.{table_in, SameSlice};
ghost use Rattle.transitions.specs.Fit.{Fits};
ghost use Rattle.transitions.specs.Results.{outcome_of};
ghost use Rattle.run.specs.Promise.{answer_in, no_room, Read, ReadIn};
ghost use Rattle.run.specs.Reading.{short, no_allowance, end_answer, seen_of, Gives};
ghost use Rattle.run.specs.Reading.{CanEnd, CanStart, CanRead, HasRoom, RunsText};

use crate::lists::{clear_lists, fill_lists};
use crate::refusals::{
    BAD_ALLOWANCE, DIFFERENT_VALUES, FIRST_HIGH_BYTE, HIGH_BYTE, LONG_TEXT, LONGEST_TEXT,
    MOST_UNITS, NO_PARSE, NONE_WHOLE, SHORT_LISTS, UNKNOWN_START,
};
use crate::whole::{Values, whole_values};
use book::{Book, INDEX_SIZE, Refusal, check_into};
use calls::{MOST_NESTING, OUTSIDE, ROWS_SIZE, Rows, RowsMut};
use cells::{CELLS_SIZE, STORE_SIZE};
use characters::skip;
use errors::Error;
use parser::enter;
use sets::PARSES_SIZE;
use transitions::{Limit, State};

// "refusal (0 if none), place, kind, argument, work, number of parses, value cell"
#[derive(Clone, Copy, PartialEq, Eq, Debug, Default)]
pub struct Answer {
    pub refusal: u32,
    pub place: u32,
    pub kind: u32,
    pub argument: u32,
    pub work: u32,
    pub parses: u32,
    pub value: u32,
}

// ---- Answers
// 1 to 11: "work 0".
fn refused(refusal: u32, place: u32) -> Answer
    ensures { answer_in result ≡ answer refusal place 0 0 0 0 0 }
{
    Answer {
        refusal,
        place,
        ..Answer::default()
    }
}

// An answer of the end, without an error.
fn at_end(refusal: u32, work: u32, parses: u32, value: u32) -> Answer
    ensures { answer_in result ≡ answer refusal 0 0 0 work parses value }
{
    Answer {
        refusal,
        work,
        parses,
        value,
        ..Answer::default()
    }
}

// "no parse; kind and argument filled"
fn failed(e: Error, work: u32) -> Answer
    ensures { answer_in result ≡ answer no_parse e.place e.kind e.argument work 0 0 }
{
    Answer {
        refusal: NO_PARSE,
        place: e.place,
        kind: e.kind,
        argument: e.argument,
        work,
        ..Answer::default()
    }
}

// 31, 32 or a value.
fn by_values(values: Values, work: u32, parses: u32) -> Answer
    ensures { answer_in result ≡ end_answer values work parses }
{
    match values {
        Values::Nothing => at_end(NONE_WHOLE, work, parses, 0),
        Values::One(cell) => at_end(0, work, parses, cell),
        Values::Different => at_end(DIFFERENT_VALUES, work, parses, 0),
    }
}

// The end: 20 to 23, 41, 30, 31, 32 or a value.
fn ending(
    text: &[u8],
    allowance: u32,
    cells: &mut [u32],
    parses: &mut [u32],
    store: &[u32],
    rows: &Rows,
    found: Result<Option<Error>, Limit>,
    state: State,
) -> Answer
    requires { CanEnd text.now cells.old parses.old store.now (outcome_of found state) }
    ensures { Gives cells.old cells.new parses.old parses.new result (λ cells parses.
        answers.at_end cells parses text.now allowance (seen_of (outcome_of found state) store.now rows.now)) }
{
    // The units left are never more than the allowance.
    let work = allowance.saturating_sub(state.units);
    match found {
        Err(limit) => {
            clear_lists(cells, parses);
            at_end(limit.number(), work, 0, 0)
        }
        Ok(Some(e)) => {
            clear_lists(cells, parses);
            failed(e, work)
        }
        Ok(None) => {
            fill_lists(cells, parses, store, rows, state.cells);
            let values = whole_values(text, rows);
            let number = rows.parse_count(MOST_NESTING) as u32;
            by_values(values, work, number)
        }
    }
}

// ---- The run
// The start's use at the text's beginning, with 200 levels of nesting and no cells.
fn run(
    book: &Book,
    text: &[u8],
    store: &mut [u32],
    rows: &mut RowsMut,
    start: u32,
    units: u32,
) -> (Result<Option<Error>, Limit>, State)
    requires { CanStart book.now text.now store.old }
    ensures runs { RunsText book.now text.now units start store.new (table_in rows.new) (outcome_of result.0 result.1) }
    ensures slice { SameSlice rows.old rows.new }
{
    cells::clear(store);
    let mut state = State { units, cells: 0 };
    let first = skip(text, 0) as u32;
    let found = enter(
        book,
        text,
        store,
        rows,
        MOST_NESTING,
        OUTSIDE,
        start,
        first,
        &mut state,
    );
    (found, state)
}

// ---- The text and the start
// The place of the first byte of 128 or more.
fn first_high(text: &[u8]) -> Option<usize>
    ensures { result ≡ position (λ b. nat_le first_high_byte b) text.now }
{
    text.iter().position(|b| FIRST_HIGH_BYTE <= *b)
}

// The start, then the text: 9, 10, 11; then the run, by the book that the index is of.
fn on_book(
    book: &[u8],
    index: &[usize],
    text: &[u8],
    start: u32,
    allowance: u32,
    cells: &mut [u32],
    parses: &mut [u32],
    store: &mut [u32],
    rows: &mut RowsMut,
) -> Answer
    requires { CanRead (book_in book.now index.now) cells.old parses.old store.old }
    ensures { Gives cells.old cells.new parses.old parses.new result (λ cells parses.
        answers.on_book cells parses (book_in book.now index.now) text.now start allowance) }
{
    let accepted = Book::new(book, index);
    if accepted.nonterminals() <= start as usize {
        return refused(UNKNOWN_START, 0);
    }
    if (LONGEST_TEXT as usize) < text.len() {
        return refused(LONG_TEXT, LONGEST_TEXT);
    }
    if let Some(high) = first_high(text) {
        return refused(HIGH_BYTE, high as u32);
    }
    let (found, state) = run(&accepted, text, store, rows, start, allowance);
    ending(
        text,
        allowance,
        cells,
        parses,
        store,
        &rows.shared(),
        found,
        state,
    )
}

// ---- The call
fn too_short(cells: &[u32], parses: &[u32]) -> bool
    ensures { result ≡ short cells.now parses.now }
{
    cells.len() < CELLS_SIZE || parses.len() < PARSES_SIZE
}

fn no_room(index: &[usize], store: &[u32], rows: &[u32]) -> bool
    ensures { result ≡ no_room index.now store.now rows.now }
{
    index.len() < INDEX_SIZE || store.len() < STORE_SIZE || rows.len() < ROWS_SIZE
}

fn no_allowance(allowance: u32) -> bool
    ensures { result ≡ no_allowance allowance }
{
    allowance == 0 || MOST_UNITS < allowance
}

// A refusal of the book's check. However long the book is, the check ends within its first 3,778 bytes
// (`refusal_bounds` of the crate book), so that both numbers fit.
fn book_refused(refusal: Refusal) -> Answer
    requires { Fits (fault_number refusal.fault) × Fits refusal.place }
    ensures { answer_in result ≡ answer (fault_number refusal.fault) refusal.place 0 0 0 0 0 }
{
    refused(refusal.fault.number() as u32, refusal.place as u32)
}

// The call, where the working memory has its sizes.
fn in_room(
    book: &[u8],
    text: &[u8],
    start: u32,
    allowance: u32,
    cells: &mut [u32],
    parses: &mut [u32],
    index: &mut [usize],
    store: &mut [u32],
    rows: &mut RowsMut,
) -> Answer
    requires { HasRoom index.old store.old }
    ensures { Gives cells.old cells.new parses.old parses.new result (λ cells parses.
        answer_of cells parses book.now text.now start allowance) }
{
    if too_short(cells, parses) {
        return refused(SHORT_LISTS, 0);
    }
    if no_allowance(allowance) {
        return refused(BAD_ALLOWANCE, 0);
    }
    if let Err(refusal) = check_into(book, index) {
        return book_refused(refusal);
    }
    on_book(
        book, index, text, start, allowance, cells, parses, store, rows,
    )
}

// The call, with working memory that is lent and may hold anything: a book's index, a store of cells, the rows of
// calls. Too little of it is refused as too short lists are.
pub fn read_in(
    book: &[u8],
    text: &[u8],
    start: u32,
    allowance: u32,
    cells: &mut [u32],
    parses: &mut [u32],
    index: &mut [usize],
    store: &mut [u32],
    rows: &mut [u32],
) -> Answer
    ensures { ReadIn book.now text.now start allowance cells.old cells.new parses.old parses.new
        index.old store.old rows.old result }
{
    if no_room(index, store, rows) {
        return refused(SHORT_LISTS, 0);
    }
    let mut rows = RowsMut::new(rows);
    in_room(
        book, text, start, allowance, cells, parses, index, store, &mut rows,
    )
}

// The call of document 01, "The answer".
pub fn read(
    book: &[u8],
    text: &[u8],
    start: u32,
    allowance: u32,
    cells: &mut [u32],
    parses: &mut [u32],
) -> Answer
    ensures { Read book.now text.now start allowance cells.old cells.new parses.old parses.new result }
{
    let mut index = [0usize; INDEX_SIZE];
    let mut store = [0u32; STORE_SIZE];
    let mut rows = [0u32; ROWS_SIZE];
    read_in(
        book, text, start, allowance, cells, parses, &mut index, &mut store, &mut rows,
    )
}
