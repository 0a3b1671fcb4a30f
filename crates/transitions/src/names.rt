// What the names of an opening do that calls nothing. Document 02 d.
//
// A declared name stands in the row of its level, and what follows it runs one level further in; so the names of an
// opening are those of the rows next above the first free one (`names_above` of run_model's Rows), and only their
// number is handed on.
ghost use Rattle.std.specs.Prelude.{◌≡◌, ◌<◌};
ghost use Rattle.calls.specs.Lent.{table_in, SameSlice};
ghost use Rattle.transitions.specs.Fit.{Fits};
ghost use Rattle.transitions.specs.Results.{reached_of, named_of};
ghost use Rattle.transitions.specs.declared.outcomes.State as code;
ghost use Rattle.transitions.specs.Names.{no_names, IsNamed};
ghost use Rattle.transitions.specs.LayerContracts.{Short, Ready, OpensBody, DeclaresName};

use crate::items::make;
use crate::outcomes::{Ended, Limit, State};
use crate::places::skipped;
use crate::stages::{List, Names, Progress, Reached};
use crate::steps::stop;
use book::Book;
use calls::{Rows, RowsMut};
use tokens::After;

// A list of names from its beginning: none is read yet.
pub fn no_names(list: List) -> Names
    ensures { result ≡ no_names list }
{
    Names {
        body: list.nonterminal,
        kinds: list.values,
        count: 0,
        closing: tokens::closing_code(list.closing),
    }
}

// The names stop, as a list does; then the body's scope opens, if there is room for them.
pub fn open_body(
    book: &Book,
    text: &[u8],
    store: &mut [u32],
    rows: &Rows,
    here: Progress,
    names: Names,
    state: &mut State,
) -> Result<Reached, Ended>
    requires { Ready book.now text.now here.call }
    ensures { OpensBody book.now text.now store.old store.new rows.now here names state.old
        (reached_of result state.new) }
{
    let closing = Some(names.closing);
    let r = stop(
        book,
        text,
        store,
        here,
        names.kinds,
        closing,
        here.place,
        state,
    )?;
    if !rows.has_room(here.call, names.count) {
        return Err(Ended::AtLimit(Limit::TooManyNames));
    }
    Ok(r)
}

// Behind a name: the place reached, the chain of the kinds, and whether a comma came behind the name.
#[derive(Clone, Copy)]
pub struct Named {
    pub place: u32,
    pub kinds: u32,
    pub comma: bool,
}

// At the place behind a name and perhaps a comma.
fn behind_name(text: &[u8], end: usize, kinds: u32) -> Named
    requires { Short text.now × Fits end }
    ensures { (s : code.State) → IsNamed text.now end kinds s (named_of (Ok result) s) }
{
    match tokens::after_element(text, true, end) {
        After::Goes(y) => Named {
            place: y as u32,
            kinds,
            comma: true,
        },
        After::Halts(y) => Named {
            place: y as u32,
            kinds,
            comma: false,
        },
    }
}

// One name more, which the first free row keeps: the cell of its kind, then the chain's.
pub fn declare_name(
    book: &Book,
    text: &[u8],
    store: &mut [u32],
    rows: &mut RowsMut,
    free: usize,
    here: Progress,
    names: Names,
    state: &mut State,
) -> Result<Named, Ended>
    requires { Ready book.now text.now free × (0 < free) }
    ensures declares { DeclaresName book.now text.now store.old store.new (table_in rows.old) (table_in rows.new) free
        here names state.old (named_of result state.new) }
    ensures slice { SameSlice rows.old rows.new }
{
    let at = skipped(text, here.place);
    let name = tokens::declaration_at(book, text, at)?;
    let size = tokens::span_length(name.place, name.end);
    rows.declare(free, name.kind as u32, name.place as u32, size as u32);
    let cell = make(text, store, cells::number(name.kind as u64), state)?;
    let kinds = make(text, store, cells::chain(names.kinds, cell), state)?;
    Ok(behind_name(text, name.end, kinds))
}
