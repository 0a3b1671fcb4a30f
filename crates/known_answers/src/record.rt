// A record of either list: a head of numbers, the first three of which are the lengths of a book, a text and a line;
// these three; and further numbers behind them.
use crate::difference::Difference;
use crate::reader::Reader;

// The bytes of the longest record.
pub const RECORD_ROOM: usize = 131072;

// The lengths, in bytes.
#[derive(Clone, Copy)]
pub struct Lengths {
    book: usize,
    text: usize,
    line: usize,
}

// A book and a text, and the line of the answer.
#[derive(Clone, Copy)]
pub struct Texts<'a> {
    pub book: &'a [u8],
    pub text: &'a [u8],
    pub line: &'a [u8],
}

// What stands behind a head.
#[derive(Clone, Copy)]
pub struct Body<'a> {
    pub texts: Texts<'a>,
    pub numbers: &'a [[u8; 4]],
}

impl Lengths {
    pub fn read(list: &mut Reader) -> Option<Lengths> {
        Some(Lengths {
            book: list.count()?,
            text: list.count()?,
            line: list.count()?,
        })
    }
}

impl<'a> Texts<'a> {
    pub fn read(list: &mut Reader<'a>, lengths: Lengths) -> Option<Texts<'a>> {
        Some(Texts {
            book: list.bytes(lengths.book)?,
            text: list.bytes(lengths.text)?,
            line: list.bytes(lengths.line)?,
        })
    }
}

impl<'a> Body<'a> {
    pub fn read<R: Record>(list: &mut Reader<'a>, record: &R) -> Option<Body<'a>> {
        Some(Body {
            texts: Texts::read(list, record.lengths())?,
            numbers: list.numbers(record.count())?,
        })
    }
}

// A call with its known answer: the head of a record, which tells what stands behind it.
pub trait Record: Copy {
    // What a record is called, and what several are.
    const NAME: &'static str;

    const NAMES: &'static str;

    // The bytes of a head.
    const HEAD_SIZE: usize;

    // None if the head is cut short.
    fn read(head: &mut Reader) -> Option<Self>;

    fn lengths(&self) -> Lengths;

    // How many numbers stand behind the line.
    fn count(&self) -> usize;

    // The first difference of what the call answers.
    fn difference(&self, body: &Body) -> Option<Difference>;
}

// The bytes of a whole record.
pub fn size_of<R: Record>(record: &R) -> usize {
    let lengths = record.lengths();
    R::HEAD_SIZE
        .saturating_add(lengths.book)
        .saturating_add(lengths.text)
        .saturating_add(lengths.line)
        .saturating_add(record.count().saturating_mul(4))
}
