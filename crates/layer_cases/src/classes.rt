// Both sides of each boundary of each class.
use crate::tally::Tally;
use characters::{Class, class_of};

const BOUNDARIES: [(u8, Class); 26] = [
    (8, Class::Other),
    (9, Class::Whitespace),
    (10, Class::Whitespace),
    (13, Class::Whitespace),
    (14, Class::Other),
    (31, Class::Other),
    (32, Class::Whitespace),
    (33, Class::Other),
    (47, Class::Other),
    (48, Class::Digit),
    (57, Class::Digit),
    (58, Class::Other),
    (64, Class::Other),
    (65, Class::Letter),
    (90, Class::Letter),
    (91, Class::Other),
    (94, Class::Other),
    (95, Class::Letter),
    (96, Class::Other),
    (97, Class::Letter),
    (122, Class::Letter),
    (123, Class::Other),
    (0, Class::Other),
    (127, Class::Other),
    (128, Class::Refused),
    (255, Class::Refused),
];

pub fn cases(tally: &mut Tally) {
    for (byte, expected) in &BOUNDARIES {
        tally.case(class_of(*byte) == *expected);
    }
}
