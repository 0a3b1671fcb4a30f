// Whether spellings are reserved, and which names they are, in a book with
//   the words: a, not reserved; b; a, reserved; ab, reserved
//   the names: a of kind 1; b of kind 2; a of kind 3
use crate::tally::Tally;
use book::{Book, INDEX_SIZE, StartingName, check_into};

const BOOK: &[u8] =
    b"\x04\x00\x01a\x00\x01b\x01\x01a\x01\x02ab\x03\x01\x01a\x02\x01b\x03\x01a\x01\x00\x00\x00\x00";

// A spelling is reserved if any equal word is.
const RESERVED: [(&[u8], bool); 6] = [
    (b"a", true),
    (b"ab", true),
    (b"b", false),
    (b"abc", false),
    (b"A", false),
    (b"", false),
];

// The last equal name wins.
const NAMES: [(&[u8], Option<StartingName>); 4] = [
    (b"a", Some(StartingName { number: 2, kind: 3 })),
    (b"b", Some(StartingName { number: 1, kind: 2 })),
    (b"ab", None),
    (b"", None),
];

fn ask(tally: &mut Tally, book: &Book) {
    for (spelling, reserved) in &RESERVED {
        tally.case(book.is_reserved(spelling) == *reserved);
    }
    for (spelling, name) in &NAMES {
        tally.case(book.lookup(spelling) == *name);
    }
}

pub fn cases(tally: &mut Tally) {
    let mut index = [0usize; INDEX_SIZE];
    match check_into(BOOK, &mut index) {
        Ok(()) => ask(tally, &Book::new(BOOK, &index)),
        Err(_) => tally.case(false),
    }
}
