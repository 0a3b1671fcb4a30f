use program::{BOOK_ROOM, TEXT_ROOM, answer_line, load};
use std::rt::Files;

// The example book of document 01.
const EXAMPLE: &[u8] = b"example.book";

const FORMS: &[u8] = b"forms.book";

// What stands before a line, the file of a book, and a text.
type Case = (&'static [u8], &'static [u8], &'static [u8]);

const TEXTS: [Case; 25] = [
    // "The example book", rows 1 to 12
    (b"row 1: ", EXAMPLE, b"1-2-3"),
    (b"row 2: ", EXAMPLE, b"1-2*3"),
    (b"row 3: ", EXAMPLE, b"1*2-3"),
    (b"row 4: ", EXAMPLE, b"1//"),
    (b"row 5: ", EXAMPLE, b"1-"),
    (b"row 6: ", EXAMPLE, b""),
    (b"row 7: ", EXAMPLE, b"(1"),
    (b"row 8: ", EXAMPLE, b"1 2"),
    (b"row 9: ", b"right.book", b"1-2-3"),
    (b"row 10: ", b"none.book", b"1-2-3"),
    (b"row 11: ", b"both.book", b"1-2-3"),
    (b"row 12: ", EXAMPLE, b"(18446744073709551616"),
    // a variant with every form of items: an identifier, a number, a variable, a child, an optional child, a delimited
    // list, an optional one, a comma list
    (
        b"all there: ",
        FORMS,
        b"net 7 price 1 2 (3, 4) [5] 6, 18446744073709551615",
    ),
    (b"all that can be absent: ", FORMS, b"net_0 0 yield 1 ()"),
    (
        b"a number with zeros in front: ",
        FORMS,
        b"x 007 price 01()",
    ),
    (b"a reserved word: ", FORMS, b"max 7 price 1 ()"),
    (b"an unknown name: ", FORMS, b"net 7 cost 1 ()"),
    // lines and columns
    (b"at the end: ", EXAMPLE, b"(1"),
    (b"after line feeds: ", EXAMPLE, b"\n\n (1 2"),
    (b"at the end, after a line feed: ", EXAMPLE, b"(1\n"),
    (b"at the end of a comment: ", EXAMPLE, b"(1\n// to the end"),
    (b"a byte of 128 in a comment: ", EXAMPLE, b"1\n// \x80"),
    (b"a byte of 255 at the start: ", EXAMPLE, b"\xff"),
    (b"a refusal without a line: ", EXAMPLE, b"\n1 2"),
    (b"behind a tab: ", EXAMPLE, b"\t(1"),
];

// The text is a file too.
const FILES: [Case; 10] = [
    (b"behind 4,096 tabs: ", EXAMPLE, b"tabs.txt"),
    // missing files, the longest accepted, and longer ones
    (b"no text: ", EXAMPLE, b"missing.txt"),
    (b"no book: ", b"missing.book", b"longest.txt"),
    (b"neither: ", b"missing.book", b"missing.txt"),
    (b"the longest text: ", EXAMPLE, b"longest.txt"),
    (b"a longer text: ", EXAMPLE, b"longer.txt"),
    (b"a far longer text: ", EXAMPLE, b"far_longer.txt"),
    (b"the longest book: ", b"longest.book", b"longest.txt"),
    (b"a longer book: ", b"longer.book", b"longest.txt"),
    (b"a far longer book: ", b"far_longer.book", b"longest.txt"),
];

// A book of a file and a text. The line goes out in parts of 16 bytes.
fn case(rt: &(impl Files + Print), label: &[u8], path: &[u8], text: &[u8]) {
    let _ = rt.write_all(label);
    let mut book = [0u8; BOOK_ROOM];
    let size = load(rt, path, &mut book);
    let mut out = [0u8; 16];
    answer_line(rt, &book[..size], text, &mut out);
}

// A book and a text of files.
fn file_case(rt: &(impl Files + Print), label: &[u8], path: &[u8], text_path: &[u8]) {
    let mut text = [0u8; TEXT_ROOM];
    let size = load(rt, text_path, &mut text);
    case(rt, label, path, &text[..size]);
}

pub fn all(rt: &(impl Files + Print)) {
    for (label, path, text) in &TEXTS {
        case(rt, label, path, text);
    }
    for (label, path, text_path) in &FILES {
        file_case(rt, label, path, text_path);
    }
}
