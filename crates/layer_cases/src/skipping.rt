// Whitespace, comments, and what only looks like a comment.
use crate::tally::Tally;
use characters::skip;

// A text, a place of it, and the place that skipping leads to.
const CASES: [(&[u8], usize, usize); 21] = [
    // whitespace
    (b"a", 0, 0),
    (b" \t\n\x0b\x0c\ra", 0, 6),
    (b"  ", 1, 2),
    (b"", 0, 0),
    // beyond the end
    (b"", 5, 5),
    (b"  a", 7, 7),
    // comments
    (b"// x\ny", 0, 5),
    (b"// x", 0, 4),
    (b"//", 0, 2),
    (b"a//", 1, 3),
    // slashes
    (b"/", 0, 0),
    (b"/ /", 0, 0),
    (b" /", 0, 1),
    (b"///\na", 0, 4),
    (b"//ab", 1, 1),
    // only a line feed ends a comment
    (b"//a\r b\nc", 0, 7),
    (b"//\r", 0, 3),
    (b"//\xff\n1", 0, 4),
    // comments after comments
    (b" // a\n // b\n c", 0, 13),
    (b"//\n//\n", 0, 6),
    (b"//\n\n\n//", 0, 7),
];

pub fn cases(tally: &mut Tally) {
    for (text, place, end) in &CASES {
        tally.case(skip(text, *place) == *end);
    }
}
