// What a variant and its steps do that calls nothing.
ghost use Rattle.std.specs.Prelude.{◌≡◌, ◌<◌};
ghost use Rattle.sets.specs.Sets.{parse, parse_of};
ghost use Rattle.calls.specs.Lent.{table_in, SameSlice};
ghost use Rattle.tokens.specs.Maps.{item_of};
ghost use Rattle.transitions.specs.Fit.{Fits, ItemFits};
ghost use Rattle.transitions.specs.Results.{spent_of, reached_of, reached_at, stage_of, stage_with};
ghost use Rattle.transitions.specs.Steps.{StepSpent};
ghost use Rattle.transitions.specs.LayerContracts.{Fitting, Ready, Does, Stages, StagesIn, StagesAll, Reaches};
ghost use Rattle.transitions.specs.LayerContracts.{GoesOn};
ghost use Rattle.transitions.specs.LayerContracts.{completes, takes, reads, lists, unopens, stops, omits, stands_alone};

use crate::items::{make, value, with_cell, with_token};
use crate::outcomes::{Ended, Limit, State, spend};
use crate::places::skipped;
use crate::stages::{Doing, List, Progress, Reached, Stage, then_steps};
use book::{Book, Step, Variant};
use calls::{Rows, RowsMut};
use sets::Parse;
use tokens::{Item, Taken};

// ---- The end of a variant
fn parse_of(variant: Variant, rest: u32, value: u32) -> Parse
    requires { Fits variant.level }
    ensures { parse_of result ≡ parse rest variant.level variant.associativity value }
{
    Parse {
        rest,
        level: variant.level as u32,
        associativity: variant.associativity,
        value,
    }
}

// Its value, and its parse joins the run's set.
pub fn finish(
    book: &Book,
    text: &[u8],
    store: &mut [u32],
    rows: &mut RowsMut,
    here: Progress,
    state: &mut State,
) -> Result<(), Limit>
    requires { Ready book.now text.now here.call }
    ensures does { Does book.now text.now store.old store.new (table_in rows.old) (table_in rows.new) state.old
        (spent_of result state.new) (completes here) }
    ensures slice { SameSlice rows.old rows.new }
{
    let cell = value(book, text, store, here.variant, here.items, state)?;
    let variant = book.variant(here.variant as usize);
    if !rows.add_run(here.call, parse_of(variant, here.place, cell)) {
        return Err(Limit::TooManyParses);
    }
    Ok(())
}

// ---- A list stops
// Its cell, then its closing, then its chain cell.
pub fn stop(
    book: &Book,
    text: &[u8],
    store: &mut [u32],
    here: Progress,
    values: u32,
    closing: Option<u32>,
    place: u32,
    state: &mut State,
) -> Result<Reached, Ended>
    requires { Fitting book.now text.now }
    ensures { GoesOn book.now text.now store.old store.new here state.old (reached_of result state.new)
        (stops values closing place here) }
{
    let cell = make(text, store, cells::list(values), state)?;
    let Some(next) = tokens::closed(text, closing, place as usize) else {
        let unclosed = skipped(text, place);
        return Err(Ended::Failed(tokens::closing_error(closing, unclosed)));
    };
    let items = with_cell(book, text, store, here.variant, here.items, cell, state)?;
    Ok(Reached {
        place: next as u32,
        items,
    })
}

// ---- An item is absent
// Its cell, then its chain cell: the items with it.
pub fn absent(
    book: &Book,
    text: &[u8],
    store: &mut [u32],
    here: Progress,
    state: &mut State,
) -> Result<u32, Limit>
    ensures { GoesOn book.now text.now store.old store.new here state.old
        (reached_at result here.place state.new) (omits here) }
{
    let cell = make(text, store, cells::absent(), state)?;
    with_cell(book, text, store, here.variant, here.items, cell, state)
}

// ---- A step
// "one per step"; "for 10 and 11 the choices replace the step's unit".
fn step_unit(step: Step, state: &mut State) -> Result<(), Limit>
    ensures { StepSpent (spent_of result state.new) step state.old }
{
    let kind = book::step_number(step);
    if kind == book::MANY {
        return Ok(());
    }
    if kind == book::COMMA_LIST {
        return Ok(());
    }
    spend(state)
}

// Kind 14 without its opening: an absent item, then the body. In the code of `take_step` itself it slows other steps.
fn body_alone(
    book: &Book,
    text: &[u8],
    store: &mut [u32],
    here: Progress,
    body: u32,
    state: &mut State,
) -> Result<Stage, Limit>
    ensures { Stages book.now text.now store.old store.new here state.old (stage_with result state.new)
        (stands_alone body here) }
{
    let items = absent(book, text, store, here, state)?;
    Ok(Stage {
        place: here.place,
        items,
        doing: Doing::Child(body),
    })
}

// A list from its beginning, with the empty chain for its elements, or for the kinds of its names.
fn begin_list(
    text: &[u8],
    store: &mut [u32],
    here: Progress,
    comma: bool,
    names: bool,
    nonterminal: u32,
    closing: Option<u32>,
    place: u32,
    state: &mut State,
) -> Result<Stage, Limit>
    ensures { StagesAll text.now store.old store.new here state.old (stage_with result state.new)
        (lists comma names nonterminal closing place here) }
{
    let values = make(text, store, cells::empty(), state)?;
    Ok(Stage {
        place,
        items: here.items,
        doing: Doing::Elements(List {
            comma,
            names,
            nonterminal,
            values,
            closing,
        }),
    })
}

// Kind 13 without its opening: the empty list.
fn unopened(
    book: &Book,
    text: &[u8],
    store: &mut [u32],
    here: Progress,
    place: u32,
    state: &mut State,
) -> Result<Reached, Ended>
    requires { Fitting book.now text.now }
    ensures { Reaches book.now text.now store.old store.new here state.old (reached_of result state.new)
        (unopens place here) }
{
    let values = make(text, store, cells::empty(), state)?;
    stop(book, text, store, here, values, None, place, state)
}

// A token was read: the items with what it adds.
fn take_token(
    book: &Book,
    text: &[u8],
    store: &mut [u32],
    here: Progress,
    item: Option<Item>,
    next: u32,
    state: &mut State,
) -> Result<Stage, Limit>
    requires { ItemFits item }
    ensures { Stages book.now text.now store.old store.new here state.old (stage_with result state.new)
        (reads (item_of item) next here) }
{
    let items = with_token(book, text, store, here.variant, here.items, item, state)?;
    Ok(Stage {
        place: next,
        items,
        doing: Doing::Steps,
    })
}

// A child, or perhaps one, from where the path is.
fn then_child(here: Progress, doing: Doing) -> Stage
    ensures { result ≡ record { place = here.place; items = here.items; doing = doing } }
{
    Stage {
        place: here.place,
        items: here.items,
        doing,
    }
}

// The next step, up to a child that it calls. "every token skips first".
pub fn take_step(
    book: &Book,
    text: &[u8],
    store: &mut [u32],
    rows: &Rows,
    here: Progress,
    state: &mut State,
) -> Result<Stage, Ended>
    requires { Ready book.now text.now here.call }
    ensures { StagesIn book.now text.now store.old store.new rows.now here state.old (stage_of result state.new)
        (takes here) }
{
    let step = book.step(here.step as usize);
    step_unit(step, state)?;
    let x = here.place as usize;
    let Some(taken) = tokens::step_at(book, text, rows, here.call, step, x) else {
        let at = skipped(text, here.place);
        return Err(Ended::Failed(tokens::step_error(book, text, rows, here.call, step, at)));
    };
    match taken {
        Taken::Token { next, item } => {
            Ok(take_token(book, text, store, here, item, next as u32, state)?)
        }
        Taken::Child(nonterminal) => Ok(then_child(here, Doing::Child(nonterminal))),
        Taken::Optional(nonterminal) => Ok(then_child(here, Doing::Optional(nonterminal))),
        Taken::List {
            comma,
            names,
            nonterminal,
            closing,
            place,
        } => Ok(begin_list(
            text,
            store,
            here,
            comma,
            names,
            nonterminal,
            closing,
            place as u32,
            state,
        )?),
        Taken::Unopened(place) => Ok(then_steps(unopened(
            book,
            text,
            store,
            here,
            place as u32,
            state,
        )?)),
        Taken::Body(body) => Ok(body_alone(book, text, store, here, body, state)?),
    }
}
