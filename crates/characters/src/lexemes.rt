// What begins at a place: an identifier, a number, or neither. A token skips first, so callers ask at a skipped place.
ghost use Rattle.std.specs.Prelude.{◌≡◌, ◌-◌};
ghost use Rattle.characters.specs.Lexemes.{identifier_at, number_at, decimal, number_of};

use crate::classes::{Class, is_of};
use crate::skipping::{Span, span_end};
use crate::spelling::part;

// Three outcomes, told apart by callers: an Option of a Result would be no plainer.
#[derive(Clone, Copy, PartialEq, Eq, Debug)]
pub enum Number {
    Nothing,
    TooLarge,
    Value { value: u64, end: usize },
}

// The place behind the last byte of an identifier.
#[tactic(auto, using(crate::proofs::LexemeLaws::identifier_out), unfolding(crate::specs::Lexemes::identifier_at))]
pub fn identifier_at(text: &[u8], place: usize) -> Option<usize>
    ensures { result ≡ identifier_at text.now place }
{
    if place < text.len() && is_of(text[place], Class::Letter) {
        Some(span_end(text, place + 1, Span::Word))
    } else {
        None
    }
}

// "at most 2^64 - 1"
const LARGEST_NUMBER: u64 = u64::MAX;

// What a digit counts; a byte below `0` counts nothing.
fn digit_value(digit: u8) -> u64
    ensures { result ≡ digit - 48 }
{
    digit.saturating_sub(b'0') as u64
}

// The number that digits spell, where their end is known. Once a value is too large, more digits only make it larger.
fn number_of(digits: &[u8], end: usize) -> Number
    ensures { result ≡ number_of (decimal 0 digits.now) end }
{
    let mut value: u64 = 0;
    for byte in digits {
        let digit = digit_value(*byte);
        if (LARGEST_NUMBER - digit) / 10 < value {
            return Number::TooLarge;
        }
        value = value * 10 + digit;
    }
    Number::Value { value, end }
}

#[tactic(auto, using(crate::proofs::SkippingLaws::span_forward), unfolding(crate::specs::Lexemes::number_at))]
pub fn number_at(text: &[u8], place: usize) -> Number
    ensures { result ≡ number_at text.now place }
{
    let end = span_end(text, place, Span::Digits);
    if end == place {
        Number::Nothing
    } else {
        number_of(part(text, place, end - place), end)
    }
}
