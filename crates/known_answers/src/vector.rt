// A vector: a call, and all that the documents make of it. Behind the lengths the head has the start, the allowance,
// the lengths of the lent lists, the seven numbers of the answer, 1 if the lists are written (else 0), and how many
// numbers of the cells and of the parses are given. These stand behind the line; zeros follow them.
use crate::difference::{Difference, Part, of_list};
use crate::line::of_line;
use crate::reader::{Reader, write_numbers};
use crate::record::{Body, Lengths, Record, Texts};
use cells::CELLS_SIZE;
use run::{Answer, read};
use sets::PARSES_SIZE;

// What the lists hold before a call.
const FILL: u32 = 4000000007;

// How many numbers more than a call writes there are in each list.
const BEYOND: usize = 12;

const CELLS_ROOM: usize = CELLS_SIZE + BEYOND;

const PARSES_ROOM: usize = PARSES_SIZE + BEYOND;

#[derive(Clone, Copy)]
pub struct Vector {
    lengths: Lengths,
    start: u32,
    allowance: u32,
    cells_lent: usize,
    parses_lent: usize,
    answer: Answer,
    // whether the call writes the lists
    written: bool,
    cells_given: usize,
    parses_given: usize,
}

fn read_answer(list: &mut Reader) -> Option<Answer> {
    Some(Answer {
        refusal: list.number()?,
        place: list.number()?,
        kind: list.number()?,
        argument: list.number()?,
        work: list.number()?,
        parses: list.number()?,
        value: list.number()?,
    })
}

fn numbers_of(a: Answer) -> [u32; 7] {
    [
        a.refusal, a.place, a.kind, a.argument, a.work, a.parses, a.value,
    ]
}

impl Vector {
    fn call(&self, texts: &Texts, cells: &mut [u32], parses: &mut [u32]) -> Answer {
        let cells_lent = self.cells_lent.min(cells.len());
        let parses_lent = self.parses_lent.min(parses.len());
        read(
            texts.book,
            texts.text,
            self.start,
            self.allowance,
            &mut cells[..cells_lent],
            &mut parses[..parses_lent],
        )
    }

    // A list after the call: if it is written, the numbers that are given, as many as it has room for, and zeros behind
    // them up to what a call writes; the rest as it was before.
    fn of_lent<const ROOM: usize>(
        &self,
        part: Part,
        given: &[[u8; 4]],
        list: &[u32; ROOM],
    ) -> Option<Difference> {
        let mut wanted = [FILL; ROOM];
        if self.written {
            wanted[..ROOM.saturating_sub(BEYOND)].fill(0);
            write_numbers(&mut wanted, given);
        }
        of_list(part, &wanted, list)
    }
}

impl Record for Vector {
    const NAME: &'static str = "vector";

    const NAMES: &'static str = "vectors";

    const HEAD_SIZE: usize = 4 * 17;

    fn read(head: &mut Reader) -> Option<Vector> {
        Some(Vector {
            lengths: Lengths::read(head)?,
            start: head.number()?,
            allowance: head.number()?,
            cells_lent: head.count()?,
            parses_lent: head.count()?,
            answer: read_answer(head)?,
            written: head.number()? != 0,
            cells_given: head.count()?,
            parses_given: head.count()?,
        })
    }

    fn lengths(&self) -> Lengths {
        self.lengths
    }

    fn count(&self) -> usize {
        self.cells_given.saturating_add(self.parses_given)
    }

    // The answer first, then the cells and the parses, then the line.
    fn difference(&self, body: &Body) -> Option<Difference> {
        let (cells_given, parses_given) = body
            .numbers
            .split_at(self.cells_given.min(body.numbers.len()));
        let mut cells = [FILL; CELLS_ROOM];
        let mut parses = [FILL; PARSES_ROOM];
        let answer = self.call(&body.texts, &mut cells, &mut parses);
        of_list(Part::Answer, &numbers_of(self.answer), &numbers_of(answer))
            .or(self.of_lent(Part::Cells, cells_given, &cells))
            .or(self.of_lent(Part::Parses, parses_given, &parses))
            .or(of_line(&body.texts, &cells, answer))
    }
}
