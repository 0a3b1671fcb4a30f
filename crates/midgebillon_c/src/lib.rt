// The static library that C, C++ and Rust link: the four functions of the crate midgebillon under their own names, each
// with the promise that it has there. It has no code of its own, relies on midgebillon, and assumes nothing.
//
// What no theorem says: whoever calls from another language owes what a slice is: a pointer that is not null to as many
// numbers as the length says, and no slice that is written overlaps another. include/midgebillon.h tells a C program
// so; rust/ has a wrapper whose types do.
#![tactic(auto)]

ghost use Rattle.midgebillon.specs.Joining.{JoinsInto};
ghost use Rattle.midgebillon.specs.Library.{ReadInto, ReadIntoWith, PrintsInto, line_for};

#[unsafe(no_mangle)]
pub extern "C" fn midgebillon_read(
    book: &[u8],
    text: &[u8],
    start: u32,
    allowance: u32,
    cells: &mut [u32],
    parses: &mut [u32],
    answer: &mut [u32],
)
    ensures { ReadInto book.now text.now start allowance cells.old cells.new parses.old parses.new
        answer.old answer.new }
{
    midgebillon::midgebillon_read(book, text, start, allowance, cells, parses, answer);
}

#[unsafe(no_mangle)]
pub extern "C" fn midgebillon_read_in(
    book: &[u8],
    text: &[u8],
    start: u32,
    allowance: u32,
    cells: &mut [u32],
    parses: &mut [u32],
    index: &mut [usize],
    store: &mut [u32],
    rows: &mut [u32],
    answer: &mut [u32],
)
    ensures { ReadIntoWith book.now text.now start allowance cells.old cells.new parses.old parses.new
        index.old index.new store.old store.new rows.old rows.new answer.old answer.new }
{
    midgebillon::midgebillon_read_in(
        book, text, start, allowance, cells, parses, index, store, rows, answer,
    );
}

#[unsafe(no_mangle)]
pub extern "C" fn midgebillon_print<'a>(
    book: &'a [u8],
    text: &'a [u8],
    cells: &[u32],
    answer: &[u32],
    out: &mut [u8],
) -> usize
    ensures { PrintsInto
        (line_for book.now text.now cells.now answer.now)
        out.old out.new result }
{
    midgebillon::midgebillon_print(book, text, cells, answer, out)
}

#[unsafe(no_mangle)]
pub extern "C" fn midgebillon_furthest(errors: &[u32], out: &mut [u32]) -> u32
    ensures { JoinsInto errors.now out.old out.new result }
{
    midgebillon::midgebillon_furthest(errors, out)
}
