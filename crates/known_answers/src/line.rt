// The printed line compared with the known one.
use crate::difference::{Difference, Part, of_list, of_number};
use crate::record::{RECORD_ROOM, Texts};
use book::{Book, INDEX_SIZE, check_into};
use printing::print;
use run::Answer;

// What the room for a line holds before it is printed: a byte that no line has.
const FILL: u8 = 7;

// How many bytes were printed: none if the room is too little, which for C is 0 too.
fn printed(texts: &Texts, cells: &[u32], answer: Answer, out: &mut [u8]) -> usize {
    let mut index = [0usize; INDEX_SIZE];
    // of a refused book no value is printed, and so no name
    let _ = check_into(texts.book, &mut index);
    let book = Book::new(texts.book, &index);
    print(&book, texts.text, cells, answer, out).unwrap_or(0)
}

// In exactly enough room.
fn in_enough(texts: &Texts, cells: &[u32], answer: Answer) -> Option<Difference> {
    let wanted = texts.line;
    let mut space = [FILL; RECORD_ROOM];
    let Some(out) = space.get_mut(..wanted.len()) else {
        return Some(Difference::Unreadable);
    };
    let size = printed(texts, cells, answer, out);
    let length = of_number(Part::LineSize, 0, wanted.len() as u64, size as u64);
    length.or(of_list(Part::Line, wanted, out))
}

// In one byte too few, which stay as they are.
fn in_too_few(texts: &Texts, cells: &[u32], answer: Answer) -> Option<Difference> {
    let untouched = [FILL; RECORD_ROOM];
    let mut space = [FILL; RECORD_ROOM];
    let Some(out) = space.get_mut(..texts.line.len().saturating_sub(1)) else {
        return Some(Difference::Unreadable);
    };
    let size = printed(texts, cells, answer, out);
    let length = of_number(Part::Room, 0, 0, size as u64);
    length.or(of_list(Part::Room, &untouched, out))
}

pub fn of_line(texts: &Texts, cells: &[u32], answer: Answer) -> Option<Difference> {
    in_enough(texts, cells, answer).or(in_too_few(texts, cells, answer))
}
