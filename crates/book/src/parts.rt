// What a part of the book gives, and single bytes.
ghost use Rattle.std.specs.Prelude.{◌≡◌};
ghost use Rattle.characters.specs.Classes.{between};
ghost use Rattle.book.specs.Check.{checked, fixed as isFixed};
ghost use Rattle.book.specs.Index.{reading_of};
ghost use Rattle.book.specs.Numbers.{bad_field, fault_number};

use crate::ranges::Range;
use crate::refusals::{Fault, Refusal};
use characters::byte_at;

// A part of the book that was read.
#[derive(Clone, Copy)]
pub struct Read {
    // 0 where the part has none
    pub value: usize,
    // the place behind it
    pub next: usize,
}

// A byte of a range, else the fault at its place.
#[tactic(auto, unfolding(crate::specs::Check::checked))]
pub fn field(book: &[u8], place: usize, range: Range, fault: Fault) -> Result<Read, Refusal>
    ensures { checked (between range.low range.high) (fault_number fault) place book.now place ≡
        reading_of result (λ v. v) }
{
    if book.len() <= place {
        return Err(Refusal {
            fault: Fault::EndsEarly,
            place: book.len(),
        });
    }
    let value = byte_at(book, place) as usize;
    if !range.contains(value) {
        return Err(Refusal { fault, place });
    }
    Ok(Read {
        value,
        next: place + 1,
    })
}

// A binder's byte, which is n, or another's, up to `high`; else 6 at its place.
pub fn fixed(
    book: &[u8],
    place: usize,
    binder: bool,
    n: usize,
    high: usize,
) -> Result<Read, Refusal>
    ensures { checked (isFixed binder n (between 0 high)) bad_field place book.now place ≡
        reading_of result (λ v. v) }
{
    if binder {
        field(book, place, Range { low: n, high: n }, Fault::BadField)
    } else {
        field(book, place, Range { low: 0, high }, Fault::BadField)
    }
}
