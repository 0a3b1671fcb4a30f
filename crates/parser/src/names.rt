// The names of an opening, and the body behind them. Document 02 d, "an opening character, a comma list of names, a
// closing character, and a body".
ghost use Rattle.calls.specs.Lent.{table_in, SameSlice};
ghost use Rattle.transitions.specs.Results.{outcome_of};
ghost use Rattle.transitions.specs.LayerContracts.{Does};
ghost use Rattle.parser.specs.Cycle.{OnNames, closes_names, declares_one, chooses_names};

use crate::left_recursion::enter;
use crate::parser::follow;
use book::Book;
use calls::RowsMut;
use errors::Error;
use transitions::{
    Limit, Names, Next, Progress, State, begin_child, both_sides, declare_name, open_body, spend,
};

// They stop, and the body behind them is called.
#[cycle(descent)]
fn close(
    book: &Book,
    text: &[u8],
    store: &mut [u32],
    rows: &mut RowsMut,
    free: usize,
    here: Progress,
    names: Names,
    state: &mut State,
) -> Result<Option<Error>, Limit>
    requires { OnNames book.now text.now free here names }
    ensures does { Does book.now text.now store.old store.new (table_in rows.old) (table_in rows.new) state.old
        (outcome_of result state.new) (closes_names free here names) }
    ensures slice { SameSlice rows.old rows.new }
{
    let r = match open_body(book, text, store, &rows.shared(), here, names, state) {
        Ok(r) => r,
        Err(ended) => return ended.outcome(),
    };
    let there = Progress {
        place: r.place,
        items: r.items,
        ..here
    };
    let binder = calls::body_binder(names.count);
    let at = begin_child(text, rows, there);
    let child = enter(book, text, store, rows, free, binder, names.body, at, state);
    follow(
        book,
        text,
        store,
        rows,
        free,
        there,
        Next::Steps,
        child,
        state,
    )
}

// One name more, and what follows it, one level further in.
#[cycle(descent)]
fn declare(
    book: &Book,
    text: &[u8],
    store: &mut [u32],
    rows: &mut RowsMut,
    free: usize,
    here: Progress,
    names: Names,
    state: &mut State,
) -> Result<Option<Error>, Limit>
    requires { OnNames book.now text.now free here names }
    ensures does { Does book.now text.now store.old store.new (table_in rows.old) (table_in rows.new) state.old
        (outcome_of result state.new) (declares_one free here names) }
    ensures slice { SameSlice rows.old rows.new }
{
    spend(state)?;
    if free == 0 {
        return Err(Limit::TooDeep);
    }
    let name = match declare_name(book, text, store, rows, free, here, names, state) {
        Ok(name) => name,
        Err(ended) => return ended.outcome(),
    };
    let there = Progress {
        place: name.place,
        ..here
    };
    let more = Names {
        kinds: name.kinds,
        count: names.count + 1,
        ..names
    };
    if name.comma {
        choose(book, text, store, rows, free - 1, there, more, state)
    } else {
        close(book, text, store, rows, free - 1, there, more, state)
    }
}

// Stop comes before one more; one unit for both.
#[cycle(descent)]
pub fn choose(
    book: &Book,
    text: &[u8],
    store: &mut [u32],
    rows: &mut RowsMut,
    free: usize,
    here: Progress,
    names: Names,
    state: &mut State,
) -> Result<Option<Error>, Limit>
    requires { OnNames book.now text.now free here names }
    ensures does { Does book.now text.now store.old store.new (table_in rows.old) (table_in rows.new) state.old
        (outcome_of result state.new) (chooses_names free here names) }
    ensures slice { SameSlice rows.old rows.new }
{
    spend(state)?;
    let first = close(book, text, store, rows, free, here, names, state)?;
    let second = declare(book, text, store, rows, free, here, names, state);
    both_sides(text, &rows.shared(), here, Ok(first), second)
}
