// The reader for C and Rust: the call of document 01, "The answer", the line of "Printing", and the furthest of several
// errors of document 02 g, each as a function over lists of numbers. The crate midgebillon_c exports them to other
// languages.
//
// `midgebillon_read` writes the seven numbers of the answer to the front of a lent list: what `run::read` promises
// holds of those numbers and of both lists (`ReadInto` of specs/Library.antt). `midgebillon_read_in` does so with
// working memory that is lent, as `run::read_in` does (`ReadIntoWith` there). `midgebillon_print` writes the line of
// such numbers (`PrintsInto` and `line_for` there). `midgebillon_furthest` joins a list of errors (`JoinsInto` of
// specs/Joining.antt). None has a `requires`: too short a list for the answer, the line or the error, and numbers that
// are no answer or no list of errors, leave everything as it is. None keeps anything between calls.
//
// The crate relies on the promises of `run`, `printing`, `errors` and `book`, and assumes nothing.
//
// specs/ has what the functions promise (Library, Joining), and proofs/ has laws: one for each way out of the first
// three, and that with enough working memory the second promises what the first does (LibraryLaws); that what run says
// of two calls holds of the library's (TwoCallLaws).
#![tactic(auto)]

mod answer;
mod joining;

ghost use Rattle.midgebillon.specs.Joining.{JoinsInto};
ghost use Rattle.midgebillon.specs.Library.{ReadInto, ReadIntoWith, PrintsInto, line_for};

use answer::{ANSWER_SIZE, answer_in, is_answer, put_answer};
use book::{Book, INDEX_SIZE, check_into};
use errors::{ERROR_SIZE, join_list};
use joining::{number_of, put_joined};
use printing::print;
use run::{SHORT_LISTS, read, read_in};

// Reads a text by a book. With fewer than seven places for the answer nothing at all is touched.
pub fn midgebillon_read(
    book: &[u8],
    text: &[u8],
    start: u32,
    allowance: u32,
    cells: &mut [u32],
    parses: &mut [u32],
    answer: &mut [u32],
)
    ensures { ReadInto book.now text.now start allowance cells.old cells.new parses.old parses.new
        answer.old answer.new }
{
    if answer.len() < ANSWER_SIZE {
        return;
    }
    let a = read(book, text, start, allowance, cells, parses);
    put_answer(answer, a);
}

// The same with working memory that is lent, whatever it holds: a book's index, a store of cells, the rows of calls.
// Too little of it is refused as too short lists are. With fewer than seven places for the answer it isn't touched.
pub fn midgebillon_read_in(
    book: &[u8],
    text: &[u8],
    start: u32,
    allowance: u32,
    cells: &mut [u32],
    parses: &mut [u32],
    index: &mut [usize],
    store: &mut [u32],
    rows: &mut [u32],
    answer: &mut [u32],
)
    ensures { ReadIntoWith book.now text.now start allowance cells.old cells.new parses.old parses.new
        index.old index.new store.old store.new rows.old rows.new answer.old answer.new }
{
    if ANSWER_SIZE <= answer.len() {
        let a = read_in(
            book, text, start, allowance, cells, parses, index, store, rows,
        );
        put_answer(answer, a);
    }
}

// The line of an answer and its length. Where the line does not fit, or the numbers are no answer, 0, and `out` stays
// as it is. (A spelling is a part of the book or of the text, so both have one lifetime; for C that is no difference.)
pub fn midgebillon_print<'a>(
    book: &'a [u8],
    text: &'a [u8],
    cells: &[u32],
    answer: &[u32],
    out: &mut [u8],
) -> usize
    ensures { PrintsInto
        (line_for book.now text.now cells.now answer.now)
        out.old out.new result }
{
    if answer.len() < ANSWER_SIZE {
        return 0;
    }
    let a = answer_in(answer);
    let mut index = [0usize; INDEX_SIZE];
    let checked = check_into(book, &mut index);
    if !is_answer(checked, cells, a) {
        return 0;
    }
    // no line is empty
    print(&Book::new(book, &index), text, cells, a, out).unwrap_or(0)
}

// The furthest, least of a list of errors, three numbers each: place, kind, argument. 0, and the error at the front of
// `out`. Else `out` stays as it is: 1 where it has fewer than three places, 60 for no errors, 61 for a length that is
// not three times a number.
pub fn midgebillon_furthest(errors: &[u32], out: &mut [u32]) -> u32
    ensures { JoinsInto errors.now out.old out.new result }
{
    if out.len() < ERROR_SIZE {
        return SHORT_LISTS;
    }
    let joined = join_list(errors);
    put_joined(out, joined);
    number_of(joined)
}
