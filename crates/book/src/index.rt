// The index of a book: numbers in a lent slice, by which each record is found in constant time. It has a region for
// each section: the count, and then two numbers for each record, its place in the book and the sum of the numbers of
// variants, or of steps, of the records before it in the section.
ghost use Rattle.std.specs.Prelude.{◌≡◌, ◌≤◌, get_or, set};
ghost use Rattle.book.specs.Index.{steps_at, count_in, place_in, first_in, SameRecord};

use crate::limits::{LARGEST_BYTE, MOST_NAMES, MOST_NONTERMINALS, MOST_VARIANTS, MOST_WORDS};

// Where the regions begin: each has a count and two numbers for each record that a section can have.
pub const WORDS: usize = 0;

pub const NAMES: usize = WORDS + 1 + 2 * MOST_WORDS;

pub const NONTERMINALS: usize = NAMES + 1 + 2 * MOST_NAMES;

pub const VARIANTS: usize = NONTERMINALS + 1 + 2 * MOST_NONTERMINALS;

pub const STEPS: usize = VARIANTS + 1 + 2 * MOST_VARIANTS;

pub const INDEX_SIZE: usize = STEPS + 1 + 2 * LARGEST_BYTE;

// The first number that 32 bits do not hold.
const WIDE: usize = 4294967296;

// The number at i, and 0 past the end.
fn get(index: &[usize], i: usize) -> usize
    ensures { result ≡ get_or index.now i 0 }
{
    index.get(i).copied().unwrap_or(0)
}

// Writes a number; past the end it does nothing. Tried with get_mut: at its None the proof doesn't learn that the index
// is as it was.
pub fn put(index: &mut [usize], i: usize, number: usize)
    ensures { index.new ≡ set index.old i number }
{
    if i < index.len() {
        index[i] = number;
    }
}

// A record's number; of one that lies far past the end the index's length, since twice the number would be too large.
// Of a number that had 32 bits, as it has in a run, the compiler knows that it is below `WIDE`, and tests nothing.
fn within(index: &[usize], i: usize) -> usize
    ensures { SameRecord index.now i result }
{
    if i < WIDE {
        return i;
    }
    if i < index.len() { i } else { index.len() }
}

// How many records a section has.
pub fn count(index: &[usize], base: usize) -> usize
    ensures { result ≡ count_in index.now base }
{
    get(index, base)
}

// Where record i of a section begins.
pub fn place(index: &[usize], base: usize, i: usize) -> usize
    requires { base ≤ steps_at }
    ensures { result ≡ place_in index.now base i }
{
    let i = within(index, i);
    get(index, base + 1 + 2 * i)
}

// The number of record i's first variant, or step: how many the records before it have.
pub fn first(index: &[usize], base: usize, i: usize) -> usize
    requires { base ≤ steps_at }
    ensures { result ≡ first_in index.now base i }
{
    let i = within(index, i);
    get(index, base + 2 + 2 * i)
}
