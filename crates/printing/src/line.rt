// The line for an answer.
ghost use Rattle.std.specs.Prelude.{◌≡◌, take};
ghost use Rattle.semantics.specs.Numbers.{cells_size};
ghost use Rattle.printing.specs.Printing.{line_of, column_of, has_line, refused_line};
ghost use Rattle.printing.specs.Laying.{Lays};
ghost use Rattle.run.specs.Promise.{answer_in};
ghost use Rattle.printing.specs.Lines.{line_in, length_within, Prints, Window};

use crate::laying::Part;
use crate::place;
use crate::value::item;
use book::Book;
use cells::CELLS_SIZE;
use run::{Answer, HIGH_BYTE, NO_PARSE};

// The numbers of the cells that a run can make.
fn cell_numbers(cells: &[u32]) -> &[u32]
    ensures { result.now ≡ take cells_size cells.now }
{
    &cells[..CELLS_SIZE.min(cells.len())]
}

// Whether the place of an answer is one of the text, for which the line has its line and column.
fn in_text(answer: Answer) -> bool
    ensures { result ≡ has_line (answer_in answer) }
{
    answer.refusal == HIGH_BYTE || answer.refusal == NO_PARSE
}

// Two functions, as the definitions are: one for both, with what differs as a closure, would be no shorter.
fn line_of(text: &[u8], answer: Answer) -> usize
    ensures { result ≡ line_of text.now (answer_in answer) }
{
    if in_text(answer) {
        place::line(text, answer.place)
    } else {
        0
    }
}

fn column_of(text: &[u8], answer: Answer) -> usize
    ensures { result ≡ column_of text.now (answer_in answer) }
{
    if in_text(answer) {
        place::column(text, answer.place)
    } else {
        0
    }
}

// Line and column of an answer. To count them is to go over the text up to the place: `print`, which lays its line
// twice, counts once.
#[derive(Clone, Copy)]
struct Position {
    line: usize,
    column: usize,
}

fn position_of(text: &[u8], answer: Answer) -> Position
    ensures line { result.line ≡ line_of text.now (answer_in answer) }
    ensures column { result.column ≡ column_of text.now (answer_in answer) }
{
    Position {
        line: line_of(text, answer),
        column: column_of(text, answer),
    }
}

// The text is the one that the position was counted in.
fn refused(part: &mut Part, text: &[u8], answer: Answer, at: Position)
    requires line { at.line ≡ line_of text.now (answer_in answer) }
    requires column { at.column ≡ column_of text.now (answer_in answer) }
    ensures { Lays part.old part.new (refused_line text.now (answer_in answer)) }
{
    part.field(b"refused ", answer.refusal as u64);
    part.field(b" place ", answer.place as u64);
    part.field(b" kind ", answer.kind as u64);
    part.field(b" argument ", answer.argument as u64);
    part.field(b" line ", at.line as u64);
    part.field(b" column ", at.column as u64);
    part.byte(b'\n');
}

// The line.
fn line(book: &Book, text: &[u8], cells: &[u32], answer: Answer, at: Position, part: &mut Part)
    requires line { at.line ≡ line_of text.now (answer_in answer) }
    requires column { at.column ≡ column_of text.now (answer_in answer) }
    ensures { Lays part.old part.new (line_in book.now text.now cells.now answer) }
{
    if answer.refusal != 0 {
        return refused(part, text, answer, at);
    }
    part.bytes(b"value ");
    item(book, text, cell_numbers(cells), part, answer.value);
    part.byte(b'\n');
}

// The bytes are skipped, so that one which is stored is past the limit.
fn length_at(
    book: &Book,
    text: &[u8],
    cells: &[u32],
    answer: Answer,
    at: Position,
    limit: usize,
) -> Option<usize>
    requires line { at.line ≡ line_of text.now (answer_in answer) }
    requires column { at.column ≡ column_of text.now (answer_in answer) }
    ensures { result ≡ length_within limit (line_in book.now text.now cells.now answer) }
{
    let mut past = [0u8; 1];
    let mut part = Part {
        out: &mut past,
        skip: limit,
        size: 0,
    };
    line(book, text, cells, answer, at, &mut part);
    if part.size == 0 {
        Some(limit - part.skip)
    } else {
        None
    }
}

fn part_at(
    book: &Book,
    text: &[u8],
    cells: &[u32],
    answer: Answer,
    at: Position,
    from: usize,
    out: &mut [u8],
) -> usize
    requires line { at.line ≡ line_of text.now (answer_in answer) }
    requires column { at.column ≡ column_of text.now (answer_in answer) }
    ensures { Window from (line_in book.now text.now cells.now answer) out.old out.new result }
{
    let mut part = Part {
        out,
        skip: from,
        size: 0,
    };
    line(book, text, cells, answer, at, &mut part);
    part.size
}

// How long the line is, if it has at most `limit` bytes; none if it is longer.
pub fn line_length(
    book: &Book,
    text: &[u8],
    cells: &[u32],
    answer: Answer,
    limit: usize,
) -> Option<usize>
    ensures { result ≡ length_within limit (line_in book.now text.now cells.now answer) }
{
    length_at(book, text, cells, answer, position_of(text, answer), limit)
}

// The part of the line from byte number `from` on, as much of it as there is and `out` holds; and how many bytes that
// is.
pub fn print_part(
    book: &Book,
    text: &[u8],
    cells: &[u32],
    answer: Answer,
    from: usize,
    out: &mut [u8],
) -> usize
    ensures { Window from (line_in book.now text.now cells.now answer) out.old out.new result }
{
    part_at(
        book,
        text,
        cells,
        answer,
        position_of(text, answer),
        from,
        out,
    )
}

// The line, if `out` has room for all of it, and how long it is; else none, and `out` stays as it is.
pub fn print(
    book: &Book,
    text: &[u8],
    cells: &[u32],
    answer: Answer,
    out: &mut [u8],
) -> Option<usize>
    ensures { Prints (line_in book.now text.now cells.now answer) out.old out.new result }
{
    let at = position_of(text, answer);
    let length = length_at(book, text, cells, answer, at, out.len())?;
    part_at(book, text, cells, answer, at, 0, out);
    Some(length)
}
