// A book and a text with what the Rust answered. Behind the lengths the head has the start, the refusal, the place (0
// unless there is no parse) and the number of parses; behind the line stand rest, level and associativity of each
// parse. compare/README.md tells how the list is made.
use crate::difference::{Difference, Part, of_list, of_number};
use crate::line::of_line;
use crate::reader::{Reader, write_numbers};
use crate::record::{Body, Lengths, Record, Texts};
use cells::CELLS_SIZE;
use run::{Answer, MOST_UNITS, NO_PARSE, read};
use sets::{PARSE_SIZE, PARSES_SIZE};

// The numbers of a parse: its cell is the reader's own.
const RUST_PARSE_SIZE: usize = PARSE_SIZE - 1;

// Where the numbers that are compared stand in an answer.
const ANSWER_REFUSAL: usize = 0;

const ANSWER_PLACE: usize = 1;

const ANSWER_PARSES: usize = 5;

#[derive(Clone, Copy)]
pub struct RustAnswer {
    lengths: Lengths,
    start: u32,
    refusal: u32,
    place: u32,
    parses: u32,
}

fn of_answer_number(place: usize, wanted: u32, got: u32) -> Option<Difference> {
    of_number(Part::Answer, place, u64::from(wanted), u64::from(got))
}

impl RustAnswer {
    // The place is compared where there is no parse.
    fn of_place(&self, answer: Answer) -> Option<Difference> {
        if answer.refusal != NO_PARSE {
            return None;
        }
        of_answer_number(ANSWER_PLACE, self.place, answer.place)
    }

    fn of_answer(&self, answer: Answer) -> Option<Difference> {
        of_answer_number(ANSWER_REFUSAL, self.refusal, answer.refusal)
            .or(self.of_place(answer))
            .or(of_answer_number(ANSWER_PARSES, self.parses, answer.parses))
    }
}

// Of each parse that is given, all but the cell.
fn of_parses(given: &[[u8; 4]], parses: &[u32; PARSES_SIZE]) -> Option<Difference> {
    let mut wanted = *parses;
    let given = given.chunks_exact(RUST_PARSE_SIZE);
    for (parse, numbers) in wanted.chunks_exact_mut(PARSE_SIZE).zip(given) {
        write_numbers(parse, numbers);
    }
    of_list(Part::Parses, &wanted, parses)
}

// The line of a value; a refusal has none in the list.
fn of_value(texts: &Texts, cells: &[u32], answer: Answer) -> Option<Difference> {
    if answer.refusal != 0 {
        return of_number(Part::LineSize, 0, texts.line.len() as u64, 0);
    }
    of_line(texts, cells, answer)
}

impl Record for RustAnswer {
    const NAME: &'static str = "answer of the Rust";

    const NAMES: &'static str = "answers of the Rust";

    const HEAD_SIZE: usize = 4 * 7;

    fn read(head: &mut Reader) -> Option<RustAnswer> {
        Some(RustAnswer {
            lengths: Lengths::read(head)?,
            start: head.number()?,
            refusal: head.number()?,
            place: head.number()?,
            parses: head.number()?,
        })
    }

    fn lengths(&self) -> Lengths {
        self.lengths
    }

    fn count(&self) -> usize {
        (self.parses as usize).saturating_mul(RUST_PARSE_SIZE)
    }

    fn difference(&self, body: &Body) -> Option<Difference> {
        let mut cells = [0u32; CELLS_SIZE];
        let mut parses = [0u32; PARSES_SIZE];
        let answer = read(
            body.texts.book,
            body.texts.text,
            self.start,
            MOST_UNITS,
            &mut cells,
            &mut parses,
        );
        self.of_answer(answer)
            .or(of_parses(body.numbers, &parses))
            .or(of_value(&body.texts, &cells, answer))
    }
}
