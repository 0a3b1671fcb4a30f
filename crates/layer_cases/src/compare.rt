// The books of a file, each compared field by field with what stands behind it.
use crate::tally::Tally;
use book::{Book, INDEX_SIZE, Step, check_into, step_number};

// What is left of the file, and whether all before it was as expected. No Option: the books behind a difference are
// compared too. Where a file is cut short, what was cut off counts as bytes of 0, of a book or a spelling as nothing.
#[derive(Clone, Copy)]
struct Cursor<'a> {
    rest: &'a [u8],
    same: bool,
}

// The first byte, and what is behind it.
fn first_byte(file: &[u8]) -> (u8, &[u8]) {
    match file.split_first() {
        Some((byte, rest)) => (*byte, rest),
        None => (0, file),
    }
}

// The first bytes, so many or all that are there, and what is behind them.
fn first_bytes(file: &[u8], size: usize) -> (&[u8], &[u8]) {
    file.split_at(size.min(file.len()))
}

impl<'a> Cursor<'a> {
    // The next byte is `value`.
    fn is(self, value: usize) -> Cursor<'a> {
        let (byte, rest) = first_byte(self.rest);
        Cursor {
            rest,
            same: self.same && usize::from(byte) == value,
        }
    }

    // The next two bytes are `value`, the high one first.
    fn is_wide(self, value: usize) -> Cursor<'a> {
        self.is(value / 256).is(value % 256)
    }

    // The next bytes are a length and `bytes`.
    fn is_spelling(self, bytes: &[u8]) -> Cursor<'a> {
        let start = self.is(bytes.len());
        let (spelling, rest) = first_bytes(start.rest, bytes.len());
        Cursor {
            rest,
            same: start.same && spelling == bytes,
        }
    }

    // The next bytes are a count and so many records.
    fn is_section<F: Fn(Cursor<'a>, usize) -> Cursor<'a>>(self, is_record: F) -> Cursor<'a>
        requires { F.IsAlwaysCallable is_record }
    {
        let count = usize::from(first_byte(self.rest).0);
        let mut cursor = self.is(count);
        for i in 0..count {
            cursor = is_record(cursor, i);
        }
        cursor
    }

    fn is_step(self, step: Step) -> Cursor<'a> {
        let (a, b, c) = match step {
            Step::Character(a)
            | Step::Word(a)
            | Step::VariableOfKind(a)
            | Step::Nonterminal(a)
            | Step::Optional(a)
            | Step::Many(a)
            | Step::CommaList(a) => (a, 0, 0),
            Step::Delimited {
                nonterminal: a,
                opening: b,
                closing: c,
            }
            | Step::OptionalDelimited {
                nonterminal: a,
                opening: b,
                closing: c,
            }
            | Step::Binder {
                body: a,
                opening: b,
                closing: c,
            } => (a, b, c),
            _ => (0, 0, 0),
        };
        self.is(step_number(step))
            .is(a as usize)
            .is(b as usize)
            .is(c as usize)
    }

    // Marks and associativities have the numbers of their variants' order.
    fn is_book(self, book: &Book) -> Cursor<'a> {
        self.is_section(|cursor, i| cursor.is(book.word_label(i)).is_spelling(book.word(i)))
            .is_section(|cursor, i| cursor.is(book.name_kind(i)).is_spelling(book.name(i)))
            .is_section(|cursor, i| {
                let nonterminal = book.nonterminal(i);
                cursor
                    .is(nonterminal.mark as usize)
                    .is(nonterminal.first)
                    .is(nonterminal.count)
            })
            .is_section(|cursor, i| {
                let variant = book.variant(i);
                cursor
                    .is(variant.level)
                    .is(variant.associativity as usize)
                    .is(usize::from(variant.committed))
                    .is(usize::from(variant.passing))
                    .is(variant.first)
                    .is(variant.count)
            })
            .is_section(|cursor, i| cursor.is_step(book.step(i)))
    }
}

// The book is checked, and compared with what stands behind it.
fn compare<'a>(book: &[u8], behind: &'a [u8]) -> Cursor<'a> {
    let cursor = Cursor {
        rest: behind,
        same: true,
    };
    let mut index = [0usize; INDEX_SIZE];
    match check_into(book, &mut index) {
        Ok(()) => cursor.is(0).is_wide(0).is_book(&Book::new(book, &index)),
        Err(refusal) => cursor.is(refusal.fault.number()).is_wide(refusal.place),
    }
}

// The case at the start of the file: the length of a book in two bytes, the high one first, the book, and what the
// check answers.
fn case(file: &[u8]) -> Cursor<'_> {
    let (high, rest) = first_byte(file);
    let (low, rest) = first_byte(rest);
    let (book, rest) = first_bytes(rest, usize::from(u16::from_be_bytes([high, low])));
    compare(book, rest)
}

pub fn cases(tally: &mut Tally, file: &[u8]) {
    let mut rest = file;
    // no more cases than bytes: with this bound the loop ends whatever the comparison leaves of the file
    for _ in 0..file.len() {
        if rest.is_empty() {
            return;
        }
        let cursor = case(rest);
        tally.case(cursor.same);
        rest = cursor.rest;
    }
}
