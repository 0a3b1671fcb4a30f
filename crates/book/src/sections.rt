// The records of each section, checked byte by byte, and a section as a whole.
ghost use Rattle.std.specs.Prelude.{◌≡◌, Bool, false, cond, ◌+◌, ◌*◌, ◌≤◌, eqb, length};
ghost use Rattle.characters.specs.Classes.{between};
ghost use Rattle.book.specs.Numbers.{identifier_mark, variants_each, default_level, both};
ghost use Rattle.book.specs.Numbers.{largest_byte};
ghost use Rattle.book.specs.Index.{allowed, binder_in, Before, One, RecordsRead, Section};

use crate::binders::{Sought, has_binder};
use crate::index::put;
use crate::limits::{
    BINDER_KIND, BINDER_MARK, BOTH, COMMITTED_FLAGS, DEFAULT_LEVEL, IDENTIFIER_MARK, LARGEST_BYTE,
    LAST_FLAGS, LAST_MARK, STEPS_EACH, VARIANTS_EACH,
};
use crate::parts::{Read, field, fixed};
use crate::ranges::{CHARACTERS, NAME_KINDS, Range, UNUSED, below};
use crate::refusals::{Fault, Refusal};
use crate::spellings::entry;

fn most_variants(mark: usize) -> usize
    ensures { result ≡ cond (eqb mark identifier_mark) 0 variants_each }
{
    if mark == IDENTIFIER_MARK {
        0
    } else {
        VARIANTS_EACH
    }
}

// Mark and number of variants; the value is the latter.
fn nonterminal(book: &[u8], place: usize) -> Result<Read, Refusal>
    ensures { (binder : Bool) → One Sort.Nonterminal binder book.now place result }
{
    let marks = Range {
        low: 0,
        high: LAST_MARK,
    };
    let mark = field(book, place, marks, Fault::BadField)?;
    let binder = mark.value == BINDER_MARK;
    fixed(book, mark.next, binder, 1, most_variants(mark.value))
}

fn least_associativity(level: usize) -> usize
    ensures { result ≡ cond (eqb level default_level) both 0 }
{
    if level == DEFAULT_LEVEL { BOTH } else { 0 }
}

// Level, associativity, flags and number of steps; the value is the last.
fn variant(book: &[u8], place: usize, binder: bool) -> Result<Read, Refusal>
    ensures { (binders : Bool) → One (Sort.Variant binders) binder book.now place result }
{
    let level = fixed(book, place, binder, DEFAULT_LEVEL, LARGEST_BYTE)?;
    let associativities = Range {
        low: least_associativity(level.value),
        high: BOTH,
    };
    let associativity = field(book, level.next, associativities, Fault::BadField)?;
    let flags = fixed(
        book,
        associativity.next,
        binder,
        COMMITTED_FLAGS,
        LAST_FLAGS,
    )?;
    fixed(book, flags.next, binder, 1, STEPS_EACH)
}

// What the a of a step that is no binder's, and its b and c, may be; None for no such kind.
fn arguments(kind: usize, words: usize, nonterminals: usize) -> Option<(Range, Range)>
    ensures { result ≡ allowed words nonterminals false kind }
{
    match kind {
        0 => Some((CHARACTERS, UNUSED)),
        1 => Some((below(words), UNUSED)),
        2..=4 | 6..=7 => Some((UNUSED, UNUSED)),
        5 => Some((NAME_KINDS, UNUSED)),
        8..=11 => Some((below(nonterminals), UNUSED)),
        12..=13 => Some((below(nonterminals), CHARACTERS)),
        _ => None,
    }
}

// A binder's step has kind 14: body, opening, closing. No other has that kind.
fn step_arguments(
    kind: usize,
    words: usize,
    nonterminals: usize,
    binder: bool,
) -> Option<(Range, Range)>
    ensures { result ≡ allowed words nonterminals binder kind }
{
    if !binder {
        return arguments(kind, words, nonterminals);
    }
    if kind == BINDER_KIND {
        Some((below(nonterminals), CHARACTERS))
    } else {
        None
    }
}

fn step(
    book: &[u8],
    place: usize,
    words: usize,
    nonterminals: usize,
    binder: bool,
) -> Result<Read, Refusal>
    ensures { (binders : Bool) →
        One (Sort.Step words nonterminals binders) binder book.now place result }
{
    let any = Range {
        low: 0,
        high: LARGEST_BYTE,
    };
    let kind = field(book, place, any, Fault::BadField)?;
    let Some((a, delimiter)) = step_arguments(kind.value, words, nonterminals, binder) else {
        return Err(Refusal {
            fault: Fault::BadField,
            place,
        });
    };
    let first = field(book, kind.next, a, Fault::BadField)?;
    let second = field(book, first.next, delimiter, Fault::BadField)?;
    let third = field(book, second.next, delimiter, Fault::BadField)?;
    Ok(Read {
        value: 0,
        next: third.next,
    })
}

// The sorts of records. It is no closure that reads a record: the closure would be passed the index at each call, since
// the index is written in between, and a contract needs the sort too.
#[derive(Clone, Copy, PartialEq, Eq, Debug)]
pub enum Sort {
    // with the greatest label
    Entry(usize),
    Nonterminal,
    // with whether the book has binders
    Variant(bool),
    // with the numbers of words and of nonterminals, and whether the book has binders
    Step(usize, usize, bool),
}

// Record i. Whether it is a binder's is looked for only in a book that has binders; the variants and steps of any other
// are read by calls that say so, since a check of them takes no longer then.
fn one_record(
    book: &[u8],
    place: usize,
    sort: Sort,
    index: &[usize],
    i: usize,
) -> Result<Read, Refusal>
    ensures { One sort (binder_in sort book.now index.now i) book.now place result }
{
    match sort {
        Sort::Entry(greatest) => entry(book, place, greatest),
        Sort::Nonterminal => nonterminal(book, place),
        Sort::Variant(binders) => {
            if binders {
                let binder = has_binder(book, index, Sought::OfVariant(i));
                variant(book, place, binder)
            } else {
                variant(book, place, false)
            }
        }
        Sort::Step(words, nonterminals, binders) => {
            if binders {
                let binder = has_binder(book, index, Sought::OfStep(i));
                step(book, place, words, nonterminals, binder)
            } else {
                step(book, place, words, nonterminals, false)
            }
        }
    }
}

// `count` records one after another. The index gets the place of each, and the sum of the values of those before it;
// the value is the sum of all.
fn records(
    book: &[u8],
    place: usize,
    sort: Sort,
    count: usize,
    index: &mut [usize],
    base: usize,
) -> Result<Read, Refusal>
    requires { (base + 1 + 2 * count ≤ length index.old) × (count ≤ largest_byte) × Before sort base index.old }
    ensures { RecordsRead sort book.now place count base index.old index.new result }
{
    let mut at = place;
    let mut sum = 0;
    for i in 0..count {
        let slot = base + 1 + 2 * i;
        put(index, slot, at);
        put(index, slot + 1, sum);
        let record = one_record(book, at, sort, index, i)?;
        at = record.next;
        sum += record.value;
    }
    Ok(Read {
        value: sum,
        next: at,
    })
}

// A section: its count, of a range, and its records.
pub fn section(
    book: &[u8],
    place: usize,
    counts: Range,
    sort: Sort,
    index: &mut [usize],
    base: usize,
) -> Result<Read, Refusal>
    requires { (base + 1 + 2 * counts.high ≤ length index.old) × (counts.high ≤ largest_byte) ×
        Before sort base index.old }
    ensures { Section sort (between counts.low counts.high) book.now place counts.high base
        index.old index.new result }
{
    let count = field(book, place, counts, Fault::BadCount)?;
    put(index, base, count.value);
    records(book, count.next, sort, count.value, index, base)
}
