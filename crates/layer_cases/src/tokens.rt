// Identifiers and numbers.
use crate::tally::Tally;
use characters::{Number, identifier_at, number_at};

// A text, a place of it, and where the identifier at this place ends.
const IDENTIFIERS: [(&[u8], usize, Option<usize>); 15] = [
    (b"a", 0, Some(1)),
    (b"_", 0, Some(1)),
    (b"Z9", 0, Some(2)),
    (b"z+", 0, Some(1)),
    (b"a1_Z9 b", 0, Some(5)),
    (b"a-b", 0, Some(1)),
    (b"a-b", 2, Some(3)),
    (b"ab\xe9", 0, Some(2)),
    (b"1a", 0, None),
    (b" a", 0, None),
    (b"-a", 0, None),
    (b"", 0, None),
    (b"a", 1, None),
    (b"a", 9, None),
    (b"\xe9a", 0, None),
];

// A text, a place of it, and the number at this place.
const NUMBERS: [(&[u8], usize, Number); 18] = [
    (b"0", 0, Number::Value { value: 0, end: 1 }),
    (b"007", 0, Number::Value { value: 7, end: 3 }),
    (b"12a", 0, Number::Value { value: 12, end: 2 }),
    (b"12 3", 3, Number::Value { value: 3, end: 4 }),
    (b"1_0", 0, Number::Value { value: 1, end: 1 }),
    (b"a1", 0, Number::Nothing),
    (b"-1", 0, Number::Nothing),
    (b" 1", 0, Number::Nothing),
    (b"", 0, Number::Nothing),
    (b"1", 1, Number::Nothing),
    (b"1", 9, Number::Nothing),
    (
        b"18446744073709551615",
        0,
        Number::Value {
            value: u64::MAX,
            end: 20,
        },
    ),
    (
        b"18446744073709551615 6",
        0,
        Number::Value {
            value: u64::MAX,
            end: 20,
        },
    ),
    (b"18446744073709551616", 0, Number::TooLarge),
    (b"18446744073709551620", 0, Number::TooLarge),
    (b"99999999999999999999", 0, Number::TooLarge),
    (b"(18446744073709551616", 1, Number::TooLarge),
    (b"184467440737095516150", 0, Number::TooLarge),
];

fn many_zeros(tally: &mut Tally) {
    let mut digits = [b'0'; 4001];
    digits[4000] = b'1';
    tally.case(
        number_at(&digits, 0)
            == Number::Value {
                value: 1,
                end: 4001,
            },
    );
}

pub fn cases(tally: &mut Tally) {
    for (text, place, end) in &IDENTIFIERS {
        tally.case(identifier_at(text, *place) == *end);
    }
    for (text, place, number) in &NUMBERS {
        tally.case(number_at(text, *place) == *number);
    }
    many_zeros(tally);
}
