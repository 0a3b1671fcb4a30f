// Cells by their numbers, and the spelling that a cell names.
ghost use Rattle.std.specs.Prelude.{◌≡◌};
ghost use Rattle.semantics.specs.Cells.{cell_of};
ghost use Rattle.printing.specs.Cells.{CellRead, older_than, spelling_of};

use book::Book;
use cells::{CELL_SIZE, CellNumbers, NAME_FORM, VARIABLE_FORM, absent};
use characters::part;

// Cell n, and absent where there is none.
pub fn cell_at(cells: &[u32], n: u32) -> CellNumbers
    ensures { CellRead cells.now n result }
{
    if n == 0 {
        return absent();
    }
    let end = n as usize * CELL_SIZE;
    let Some(cell) = cells.get(end - CELL_SIZE..end) else {
        return absent();
    };
    CellNumbers {
        form: cell[0],
        a: cell[1],
        b: cell[2],
    }
}

// A cell refers to older ones; any other number is none, which is 0 as in the cells themselves.
pub fn older(n: u32, cell: u32) -> u32
    ensures { result ≡ older_than n cell }
{
    if cell < n { cell } else { 0 }
}

// The part of the text, or of the book, that a name or a variable is spelled by; of any other cell, a declared variable
// among them, nothing.
pub fn spelling<'a>(book: &Book<'a, '_>, text: &'a [u8], cell: CellNumbers) -> &'a [u8]
    ensures { result.now ≡ spelling_of book.now.names text.now
        (cell_of cell.form cell.a cell.b) }
{
    match cell.form {
        NAME_FORM => part(text, cell.a as usize, cell.b as usize),
        VARIABLE_FORM => book.name(cell.a as usize),
        _ => part(text, 0, 0),
    }
}
