// How an answer differs from the known one.
use std::fmt;

// What a number is one of. `Room` is room of one byte too few for the line.
#[derive(Clone, Copy)]
pub enum Part {
    Answer,
    Cells,
    Parses,
    LineSize,
    Line,
    Room,
}

#[derive(Clone, Copy)]
pub enum Difference {
    // The first number that differs.
    Number {
        part: Part,
        place: usize,
        wanted: u64,
        got: u64,
    },
    // The record ends too early, or is too long.
    Unreadable,
}

impl fmt::Display for Part {
    fn fmt<W: fmt::Write>(&self, f: &mut fmt::Formatter<W>) -> fmt::Result {
        f.write_str(match self {
            Part::Answer => "answer",
            Part::Cells => "cells",
            Part::Parses => "parses",
            Part::LineSize => "length of the line",
            Part::Line => "line",
            Part::Room => "room of one byte too few",
        })
    }
}

// `answer 4, wanted 5, got 6`: the numbers of a part from 0 on.
impl fmt::Display for Difference {
    fn fmt<W: fmt::Write>(&self, f: &mut fmt::Formatter<W>) -> fmt::Result {
        match self {
            Difference::Number {
                part: Part::LineSize,
                place: _,
                wanted,
                got,
            } => write!(f, "{}, wanted {wanted}, got {got}", Part::LineSize),
            Difference::Number {
                part,
                place,
                wanted,
                got,
            } => write!(f, "{part} {place}, wanted {wanted}, got {got}"),
            Difference::Unreadable => f.write_str("the record can't be read"),
        }
    }
}

// One number compared.
pub fn of_number(part: Part, place: usize, wanted: u64, got: u64) -> Option<Difference> {
    if wanted == got {
        return None;
    }
    Some(Difference::Number {
        part,
        place,
        wanted,
        got,
    })
}

// Two lists compared, as far as both go.
pub fn of_list<T: Copy + Into<u64>>(part: Part, wanted: &[T], got: &[T]) -> Option<Difference> {
    let mut pairs = wanted.iter().zip(got).enumerate();
    pairs.find_map(|(place, (wanted, got))| {
        of_number(part, place, (*wanted).into(), (*got).into())
    })
}
