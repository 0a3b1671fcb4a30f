// Reads `rules.book` and `rule.txt` in its folder and writes one line: the value of the rule, or its refusal. Document
// 01, "Printing". A missing file counts as empty.
#![tactic(auto)]

use program::{BOOK_ROOM, TEXT_ROOM, answer_line, load};

// The line goes out in parts of so many bytes.
const LINE_ROOM: usize = 65536;

fn main(rt: HostRuntime) {
    let mut book = [0u8; BOOK_ROOM];
    let mut text = [0u8; TEXT_ROOM];
    let book_size = load(&rt, b"rules.book", &mut book);
    let text_size = load(&rt, b"rule.txt", &mut text);
    let mut out = [0u8; LINE_ROOM];
    answer_line(&rt, &book[..book_size], &text[..text_size], &mut out);
}
