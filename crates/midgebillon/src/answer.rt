// The seven numbers of an answer in a lent list, and whether numbers are an answer. The list is C's, so its numbers go
// by their places.
ghost use Rattle.std.specs.Prelude.{◌≡◌, ◌≤◌, length};
ghost use Rattle.characters.specs.Classes.{between};
ghost use Rattle.run.specs.Promise.{answer_in};
ghost use Rattle.midgebillon.specs.Library.{answer_size, answer_at, storing, has_cell};
ghost use Rattle.midgebillon.specs.Library.{is_refusal, is_answer};

use book::Refusal;
use cells::{CELL_SIZE, MOST_CELLS};
use run::{Answer, DIFFERENT_VALUES, HIGH_BYTE, NO_PARSE, SHORT_LISTS};
use transitions::{NO_UNIT, TOO_MANY_CELLS, TOO_MANY_NAMES};

pub const ANSWER_SIZE: usize = 7;

// The numbers of an answer, at the front of a lent list.
pub fn put_answer(numbers: &mut [u32], a: Answer)
    requires { answer_size ≤ length numbers.old }
    ensures { numbers.new ≡ storing a numbers.old }
{
    numbers[0] = a.refusal;
    numbers[1] = a.place;
    numbers[2] = a.kind;
    numbers[3] = a.argument;
    numbers[4] = a.work;
    numbers[5] = a.parses;
    numbers[6] = a.value;
}

// The answer that stands at the front of a list.
pub fn answer_in(numbers: &[u32]) -> Answer
    requires { answer_size ≤ length numbers.now }
    ensures { answer_in result ≡ answer_at numbers.now }
{
    Answer {
        refusal: numbers[0],
        place: numbers[1],
        kind: numbers[2],
        argument: numbers[3],
        work: numbers[4],
        parses: numbers[5],
        value: numbers[6],
    }
}

fn is_between(low: u32, high: u32, n: u32) -> bool
    ensures { result ≡ between low high n }
{
    (low..=high).contains(&n)
}

// Whether the list has all three numbers of a cell that a run can make.
fn has_cell(cells: &[u32], n: u32) -> bool
    ensures { result ≡ has_cell cells.now n }
{
    is_between(1, MOST_CELLS, n) && CELL_SIZE * n as usize <= cells.len()
}

// The numbers of document 01's table, and document 02's further limit.
fn is_refusal(n: u32) -> bool
    ensures { result ≡ is_refusal n }
{
    is_between(SHORT_LISTS, HIGH_BYTE, n)
        || is_between(NO_UNIT, TOO_MANY_CELLS, n)
        || n == TOO_MANY_NAMES
        || is_between(NO_PARSE, DIFFERENT_VALUES, n)
}

// A value is one of an accepted book and has its cell; a refusal is one of the documents'.
pub fn is_answer(checked: Result<(), Refusal>, cells: &[u32], a: Answer) -> bool
    ensures { result ≡ is_answer checked cells.now (answer_in a) }
{
    if a.refusal == 0 {
        checked.is_ok() && has_cell(cells, a.value)
    } else {
        is_refusal(a.refusal)
    }
}
