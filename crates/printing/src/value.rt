// A value. A cell refers to older ones alone, so the cells' numbers fall along the calls of `item` and `items`; both
// turn back at once where the slice is full, so that no cell is looked at for nothing.
ghost use Rattle.semantics.specs.Cells.{cell_of};
ghost use Rattle.printing.specs.Printing.{declared_bytes};
ghost use Rattle.printing.specs.Laying.{Lays};
ghost use Rattle.printing.specs.Cells.{plain_bytes, item_bytes, items_bytes, gap_bytes};

use crate::cell::{cell_at, older, spelling};
use crate::laying::Part;
use book::Book;
use cells::{
    CHAIN_FORM, CellNumbers, DECLARED_FORM, DebruijnIndex, HALF, LIST_FORM, NAME_FORM, NUMBER_FORM,
    VARIABLE_FORM, VARIANT_FORM, VarIndex,
};

// A declared variable, `$depth.index`.
fn declared(part: &mut Part, depth: DebruijnIndex, index: VarIndex)
    ensures { Lays part.old part.new (declared_bytes depth.0 index.0) }
{
    part.byte(b'$');
    part.number(depth.0 as u64);
    part.byte(b'.');
    part.number(index.0 as u64);
}

// An item that has no items itself: a name, a number, a variable, a declared one, or absent.
fn plain(book: &Book, text: &[u8], part: &mut Part, cell: CellNumbers)
    ensures { Lays part.old part.new
        (plain_bytes book.now.names text.now (cell_of cell.form cell.a cell.b)) }
{
    match cell.form {
        NUMBER_FORM => part.number(cell.a as u64 * HALF + cell.b as u64),
        NAME_FORM => part.bytes(spelling(book, text, cell)),
        VARIABLE_FORM => {
            part.byte(b'$');
            part.bytes(spelling(book, text, cell));
        }
        DECLARED_FORM => declared(part, DebruijnIndex(cell.a), VarIndex(cell.b)),
        _ => part.byte(b'-'),
    }
}

// The space before an item that comes after the items of a chain; a list's first has none.
fn gap(cells: &[u32], part: &mut Part, in_list: bool, chain: u32)
    ensures { Lays part.old part.new (gap_bytes cells.now in_list chain) }
{
    if in_list && cell_at(cells, chain).form != CHAIN_FORM {
        return;
    }
    part.byte(b' ');
}

// The value of cell n.
#[cycle(item_items)]
pub fn item(book: &Book, text: &[u8], cells: &[u32], part: &mut Part, n: u32)
    ensures { Lays part.old part.new (item_bytes book.now.names text.now cells.now n) }
{
    if part.is_full() {
        return;
    }
    let cell = cell_at(cells, n);
    match cell.form {
        VARIANT_FORM => {
            part.byte(b'(');
            part.number(cell.a as u64);
            items(book, text, cells, part, older(n, cell.b), false);
            part.byte(b')');
        }
        LIST_FORM => {
            part.byte(b'[');
            items(book, text, cells, part, older(n, cell.a), true);
            part.byte(b']');
        }
        _ => plain(book, text, part, cell),
    }
}

// The items of chain n, the oldest first.
#[cycle(item_items)]
fn items(book: &Book, text: &[u8], cells: &[u32], part: &mut Part, n: u32, in_list: bool)
    ensures { Lays part.old part.new (items_bytes book.now.names text.now cells.now in_list n) }
{
    if part.is_full() {
        return;
    }
    let cell = cell_at(cells, n);
    if cell.form != CHAIN_FORM {
        return;
    }
    let chain = older(n, cell.a);
    items(book, text, cells, part, chain, in_list);
    gap(cells, part, in_list, chain);
    item(book, text, cells, part, older(n, cell.b));
}
