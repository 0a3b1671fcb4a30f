// Words and starting names: a label and a spelling.
ghost use Rattle.std.specs.Prelude.{◌≡◌, Bool, get_or, ◌+◌};
ghost use Rattle.characters.specs.Spelling.{part_of};
ghost use Rattle.book.specs.Check.{checked, records};
ghost use Rattle.book.specs.Check.{shaped as isShaped, spelling as spellingAt};
ghost use Rattle.book.specs.Index.{reading_of, Valued, One};
ghost use Rattle.book.specs.Numbers.{bad_spelling};
ghost use Rattle.book.specs.declared.sections.Sort.{Sort};

use crate::limits::LONGEST_SPELLING;
use crate::parts::{Read, field};
use crate::ranges::Range;
use crate::refusals::{Fault, Refusal};
use characters::{Class, byte_at, is_of};

// Whether a byte may stand at index i of an identifier: a letter, or a digit that isn't first.
fn shaped(byte: u8, i: usize) -> bool
    ensures { result ≡ isShaped i byte }
{
    is_of(byte, Class::Letter) || (0 < i && is_of(byte, Class::Digit))
}

// One byte of a spelling whose length stands at `at`.
fn spelling_byte(book: &[u8], place: usize, i: usize, at: usize) -> Result<Read, Refusal>
    ensures { checked (isShaped i) bad_spelling at book.now place ≡
        reading_of result (λ v. get_or book.now place 0) }
{
    if book.len() <= place {
        return Err(Refusal {
            fault: Fault::EndsEarly,
            place: book.len(),
        });
    }
    if !shaped(byte_at(book, place), i) {
        return Err(Refusal {
            fault: Fault::BadSpelling,
            place: at,
        });
    }
    Ok(Read {
        value: 0,
        next: place + 1,
    })
}

fn spelling_bytes(book: &[u8], place: usize, size: usize, at: usize) -> Result<Read, Refusal>
    ensures { (records (λ b. 0) (λ i sum. checked (isShaped i) bad_spelling at) size 0 0 book.now place ≡
        reading_of result (λ v. part_of book.now place size)) × Valued result 0 }
{
    let mut next = place;
    for i in 0..size {
        next = spelling_byte(book, next, i, at)?.next;
    }
    Ok(Read { value: 0, next })
}

fn spelling(book: &[u8], place: usize) -> Result<Read, Refusal>
    ensures { (spellingAt book.now place ≡
        reading_of result (λ v. part_of book.now (place + 1) (get_or book.now place 0))) × Valued result 0 }
{
    let sizes = Range {
        low: 1,
        high: LONGEST_SPELLING,
    };
    let size = field(book, place, sizes, Fault::BadSpelling)?;
    spelling_bytes(book, size.next, size.value, place)
}

pub fn entry(book: &[u8], place: usize, greatest: usize) -> Result<Read, Refusal>
    ensures { (binder : Bool) → One (Sort.Entry greatest) binder book.now place result }
{
    let labels = Range {
        low: 0,
        high: greatest,
    };
    let label = field(book, place, labels, Fault::BadField)?;
    spelling(book, label.next)
}
