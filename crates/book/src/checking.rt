// The check of a book, section after section.
ghost use Rattle.std.specs.Prelude.{◌≡◌, cond, ℕ, ◌+◌, ◌*◌, ◌≤◌, ◌<◌, ltb, eqb, length, get_or};
ghost use Rattle.book.specs.Book.{step_number, nth_variant};
ghost use Rattle.book.specs.Numbers.{most_nonterminals, most_variants, largest_byte};
ghost use Rattle.book.specs.Check.{passes as passesIn, all_pass, check_book, variants_fit};
ghost use Rattle.book.specs.Index.{words_at, nonterminals_at, variants_at, steps_at, index_size};
ghost use Rattle.book.specs.Index.{passed_of, Section, count_in, placed_in, book_at, HeadsRead, SectionsRead};
ghost use Rattle.book.specs.Index.{Says, Checks, CheckedInto};
ghost use Rattle.book.specs.declared.sections.Sort.{Sort};

use crate::binders::{Sought, has_binder};
use crate::index::{INDEX_SIZE, NAMES, NONTERMINALS, STEPS, VARIANTS, WORDS, count, place};
use crate::limits::{
    LARGEST_BYTE, LAST_KIND, MOST_NAMES, MOST_NONTERMINALS, MOST_VARIANTS, MOST_WORDS, RESERVED,
};
use crate::parts::Read;
use crate::ranges::{Range, exactly};
use crate::reading::Book;
use crate::records::{NONTERMINAL_STEP, step_number};
use crate::refusals::{Fault, Refusal};
use crate::sections::{Sort, section};

// Words, names and nonterminals; the value is the number of variants.
fn heads(book: &[u8], index: &mut [usize]) -> Result<Read, Refusal>
    requires { index_size ≤ length index.old }
    ensures { HeadsRead book.now index.old index.new result }
{
    let word_counts = Range {
        low: 0,
        high: MOST_WORDS,
    };
    let words = section(book, 0, word_counts, Sort::Entry(RESERVED), index, WORDS)?;
    let name_counts = Range {
        low: 0,
        high: MOST_NAMES,
    };
    let names = section(
        book,
        words.next,
        name_counts,
        Sort::Entry(LAST_KIND),
        index,
        NAMES,
    )?;
    let nonterminal_counts = Range {
        low: 1,
        high: MOST_NONTERMINALS,
    };
    section(
        book,
        names.next,
        nonterminal_counts,
        Sort::Nonterminal,
        index,
        NONTERMINALS,
    )
}

// The variants, `total` of them and at most 128; the value is the number of steps.
fn variants(
    book: &[u8],
    at: usize,
    total: usize,
    binders: bool,
    index: &mut [usize],
) -> Result<Read, Refusal>
    requires { (index_size ≤ length index.old) × (count_in index.old nonterminals_at ≤ most_nonterminals) }
    ensures { Section (Sort.Variant binders) (variants_fit total) book.now at most_variants variants_at
        index.old index.new result }
{
    let counts = exactly(total, MOST_VARIANTS);
    section(book, at, counts, Sort::Variant(binders), index, VARIANTS)
}

// The steps, `total` of them. A byte counts no more than 255, so a larger total is none that a count equals.
fn steps(
    book: &[u8],
    at: usize,
    total: usize,
    binders: bool,
    index: &mut [usize],
) -> Result<Read, Refusal>
    requires { (index_size ≤ length index.old) × (count_in index.old nonterminals_at ≤ most_nonterminals) ×
        (count_in index.old variants_at ≤ most_variants) }
    ensures { Section
        (Sort.Step (count_in index.old words_at) (count_in index.old nonterminals_at) binders) (eqb total)
        book.now at largest_byte steps_at index.old index.new result }
{
    let words = count(index, WORDS);
    let nonterminals = count(index, NONTERMINALS);
    let sort = Sort::Step(words, nonterminals, binders);
    section(book, at, exactly(total, LARGEST_BYTE), sort, index, STEPS)
}

fn five_sections(book: &[u8], index: &mut [usize]) -> Result<Read, Refusal>
    requires { index_size ≤ length index.old }
    ensures { SectionsRead book.now index.old index.new result }
{
    let head = heads(book, index)?;
    let binders = has_binder(book, index, Sought::Any);
    let body = variants(book, head.next, head.value, binders, index)?;
    steps(book, body.next, body.value, binders, index)
}

// A passing variant is one step of kind 8.
fn passes(book: &Book, j: usize) -> bool
    ensures { result ≡ passesIn book.now.steps (nth_variant book.now j) }
{
    let v = book.variant(j);
    !v.passing || (v.count == 1 && step_number(book.step(v.first)) == NONTERMINAL_STEP)
}

// The first variant that doesn't pass, as a refusal.
fn all_pass(bytes: &[u8], index: &[usize]) -> Result<(), Refusal>
    ensures { (next : ℕ) → all_pass (book_at bytes.now index.now).steps
        (placed_in bytes.now index.now) bytes.now next ≡ passed_of result next }
{
    let book = Book::new(bytes, index);
    for j in 0..count(index, VARIANTS) {
        if !passes(&book, j) {
            return Err(Refusal {
                fault: Fault::BadPassing,
                place: place(index, VARIANTS, j),
            });
        }
    }
    Ok(())
}

// The check with an index that is long enough.
fn checked(book: &[u8], index: &mut [usize]) -> Result<(), Refusal>
    requires { index_size ≤ length index.old }
    ensures { Checks book.now index.old index.new result }
{
    let sections = five_sections(book, index)?;
    all_pass(book, index)?;
    if sections.next < book.len() {
        return Err(Refusal {
            fault: Fault::BytesLeftOver,
            place: sections.next,
        });
    }
    Ok(())
}

// The check of a book, which fills its index. An index that is too short is left as it is, and refused as 1. Where the
// book is refused, the index holds the places of what was read before, and the contract says nothing of them: no book
// is there to be read by them.
pub fn check_into(book: &[u8], index: &mut [usize]) -> Result<(), Refusal>
    ensures { CheckedInto book.now index.old index.new result }
{
    if index.len() < INDEX_SIZE {
        return Err(Refusal {
            fault: Fault::ShortIndex,
            place: 0,
        });
    }
    checked(book, index)
}

// The check alone, for a caller who wants the verdict and reads no book by the index.
pub fn check(book: &[u8]) -> Result<(), Refusal>
    ensures { Says (check_book book.now) result }
{
    let mut index = [0usize; INDEX_SIZE];
    check_into(book, &mut index)
}
