// The line of an answer, on standard output.
ghost use Rattle.std.specs.Prelude.{◌≡◌};
ghost use Rattle.program.specs.Rule.{Answers};

use book::{Book, INDEX_SIZE, check_into};
use cells::CELLS_SIZE;
use printing::print_part;
use run::{Answer, MOST_UNITS, read};
use sets::PARSES_SIZE;

const START: u32 = 0;

// The line in parts, each as much as `out` holds, until one is empty or can't be written. Each part is one of
// `line_bytes` by the contract of `print_part`; no contract can say what is written, so this function has none.
fn write_line(
    rt: &impl Print,
    book: &Book,
    text: &[u8],
    cells: &[u32],
    answer: Answer,
    out: &mut [u8],
) {
    let mut from = 0;
    loop {
        let size = print_part(book, text, cells, answer, from, out);
        if size == 0 || rt.write_all(&out[..size]).is_err() {
            return;
        }
        // no line has that many bytes, which the definition of the line doesn't say
        let Some(next) = from.checked_add(size) else {
            return;
        };
        from = next;
    }
}

// Reads the text by the book, writes the line of the answer by way of `out`, which needs one byte at least, and gives
// the answer.
pub fn answer_line(rt: &impl Print, book: &[u8], text: &[u8], out: &mut [u8]) -> Answer
    ensures { Answers book.now text.now result }
{
    let mut cells = [0u32; CELLS_SIZE];
    let mut parses = [0u32; PARSES_SIZE];
    let answer = read(book, text, START, MOST_UNITS, &mut cells, &mut parses);
    // the names that variables are spelled by; the line of a refused book has none
    let mut index = [0usize; INDEX_SIZE];
    let _ = check_into(book, &mut index);
    write_line(rt, &Book::new(book, &index), text, &cells, answer, out);
    answer
}
