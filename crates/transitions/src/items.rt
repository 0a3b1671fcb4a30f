// The cells of a variant: the chain of its items, and its own.
ghost use Rattle.std.specs.Prelude.{◌≡◌};
ghost use Rattle.std.specs.Prelude.{Some};
ghost use Rattle.book.specs.Book.{nth_variant};
ghost use Rattle.semantics.specs.Tokens as tokens;
ghost use Rattle.semantics.specs.Cells.{Cell, numbers_of};
ghost use Rattle.semantics.specs.Run as run;
ghost use Rattle.run_model.specs.Model.{cell_of_value};
ghost use Rattle.cells.specs.Store.{listed};
ghost use Rattle.tokens.specs.Maps.{item_of};
ghost use Rattle.transitions.specs.Results.{cell_of};
ghost use Rattle.transitions.specs.LayerContracts.{MakesCell};
ghost use Rattle.transitions.specs.Fit.{ItemFits};

use crate::outcomes::{Limit, State};
use book::Book;
use cells::CellNumbers;
use tokens::Item;

// The equal cell, or one more.
pub fn make(text: &[u8], store: &mut [u32], c: CellNumbers, state: &mut State) -> Result<u32, Limit>
    ensures { (cell : Cell) → listed c ≡ numbers_of cell →
        MakesCell text.now store.old store.new state.old (cell_of result state.new) (run.make text.now cell) }
{
    let Some(made) = cells::make(text, store, state.cells, c) else {
        return Err(Limit::TooManyCells);
    };
    state.cells = made.count;
    Ok(made.cell)
}

fn is_passing(book: &Book, j: u32) -> bool
    ensures { result ≡ (nth_variant book.now j).passing }
{
    book.variant(j as usize).passing
}

// "1 empty chain (made as a variant begins)"; "Passing variants make no cell". `begin`, `with_cell` and `value` are
// three, as the definitions are: they share the test and no more.
pub fn begin(
    book: &Book,
    text: &[u8],
    store: &mut [u32],
    j: u32,
    state: &mut State,
) -> Result<u32, Limit>
    ensures { MakesCell text.now store.old store.new state.old (cell_of result state.new)
        (run.begin book.now text.now j) }
{
    if is_passing(book, j) {
        Ok(0)
    } else {
        make(text, store, cells::empty(), state)
    }
}

// One item more; of a passing variant, its value.
pub fn with_cell(
    book: &Book,
    text: &[u8],
    store: &mut [u32],
    j: u32,
    items: u32,
    item: u32,
    state: &mut State,
) -> Result<u32, Limit>
    ensures { MakesCell text.now store.old store.new state.old (cell_of result state.new)
        (run.with_cell book.now text.now j items item) }
{
    if is_passing(book, j) {
        Ok(item)
    } else {
        make(text, store, cells::chain(items, item), state)
    }
}

// The numbers of what a token adds.
fn item_numbers(item: Item) -> CellNumbers
    requires { ItemFits (Some item) }
    ensures { (i : tokens.Item) → item_of (Some item) ≡ Some i → listed result ≡ numbers_of (run.item_cell i) }
{
    match item {
        Item::Name { place, size } => cells::name(place as u32, size as u32),
        Item::Number(value) => cells::number(value),
        Item::Variable { number, kind } => cells::variable(number as u32, kind as u32),
        Item::Declared(depth, index) => cells::declared(depth, index),
    }
}

// The item of a token, if it adds one.
pub fn with_token(
    book: &Book,
    text: &[u8],
    store: &mut [u32],
    j: u32,
    items: u32,
    item: Option<Item>,
    state: &mut State,
) -> Result<u32, Limit>
    requires { ItemFits item }
    ensures { MakesCell text.now store.old store.new state.old (cell_of result state.new)
        (run.with_token book.now text.now j items (item_of item)) }
{
    let Some(added) = item else {
        return Ok(items);
    };
    let cell = make(text, store, item_numbers(added), state)?;
    with_cell(book, text, store, j, items, cell, state)
}

// The variant's own cell; of a passing one, the child's.
pub fn value(
    book: &Book,
    text: &[u8],
    store: &mut [u32],
    j: u32,
    items: u32,
    state: &mut State,
) -> Result<u32, Limit>
    ensures { MakesCell text.now store.old store.new state.old (cell_of result state.new)
        (cell_of_value book.now text.now j items) }
{
    if is_passing(book, j) {
        Ok(items)
    } else {
        make(text, store, cells::variant(j, items), state)
    }
}
