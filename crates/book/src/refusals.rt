// Document 01's refusals of a book.
ghost use Rattle.std.specs.Prelude.{◌≡◌};
ghost use Rattle.book.specs.Numbers.{fault_number};

// Their numbers in document 01's table.
const SHORT_LISTS: usize = 1;

const BOOK_ENDS_EARLY: usize = 3;

const BAD_COUNT: usize = 4;

const BAD_SPELLING: usize = 5;

const BAD_FIELD: usize = 6;

const BAD_PASSING: usize = 7;

const BYTES_LEFT_OVER: usize = 8;

// What is wrong with a book, or with the index that is lent with it.
#[derive(Clone, Copy, PartialEq, Eq, Debug)]
pub enum Fault {
    // lent numbers too few: here, an index
    ShortIndex,
    // "ends too early"
    EndsEarly,
    // "section count outside its limits or unequal to its sum"
    BadCount,
    // "spelling not of length 1 to 15, or not identifier-shaped"
    BadSpelling,
    // "any other field out of range"
    BadField,
    // "passing variant other than one step of kind 8"
    BadPassing,
    // "bytes left over"
    BytesLeftOver,
}

impl Fault {
    // Its number in document 01's table.
    pub fn number(self) -> usize
        ensures { result ≡ fault_number self }
    {
        match self {
            Fault::ShortIndex => SHORT_LISTS,
            Fault::EndsEarly => BOOK_ENDS_EARLY,
            Fault::BadCount => BAD_COUNT,
            Fault::BadSpelling => BAD_SPELLING,
            Fault::BadField => BAD_FIELD,
            Fault::BadPassing => BAD_PASSING,
            Fault::BytesLeftOver => BYTES_LEFT_OVER,
        }
    }
}

// A fault, and the place in the book that it stands at.
#[derive(Clone, Copy, PartialEq, Eq, Debug)]
pub struct Refusal {
    pub fault: Fault,
    pub place: usize,
}
