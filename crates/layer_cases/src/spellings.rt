// Equal and unequal parts. A part that runs past the end is cut there.
use crate::tally::Tally;
use characters::{byte_at, same_spelling};

pub fn cases(tally: &mut Tally) {
    // equal
    tally.case(same_spelling(b"abc", 0, 2, b"xab", 1, 2));
    tally.case(same_spelling(b"", 0, 0, b"a", 1, 0));
    // unequal
    tally.case(!same_spelling(b"abc", 0, 2, b"abc", 0, 3));
    tally.case(!same_spelling(b"abc", 0, 2, b"abc", 1, 2));
    tally.case(!same_spelling(b"a", 0, 1, b"A", 0, 1));
    // cut at the end
    tally.case(same_spelling(b"abc", 1, 9, b"bc", 0, 2));
    tally.case(same_spelling(b"abc", 7, 2, b"", 0, 0));
    // single bytes
    tally.case(byte_at(b"ab", 1) == b'b');
    tally.case(byte_at(b"ab", 2) == 0);
}
