// What follows a parse of a child: the item is added and the steps go on, or the list does; and the failures of what
// follows its parses, together.
ghost use Rattle.std.specs.Prelude.{◌≡◌};
ghost use Rattle.std.specs.Result.{result_err};
ghost use Rattle.sets.specs.Sets.{parse_of};
ghost use Rattle.transitions.specs.Results.{stage_of, outcome_of};
ghost use Rattle.transitions.specs.Steps.{ParseEnded};
ghost use Rattle.transitions.specs.declared.outcomes.State as code;
ghost use Rattle.transitions.specs.LayerContracts.{Fitting, Stages, follows};
ghost use Rattle.transitions.specs.declared.stages.Next.{Next};

use crate::items::{make, with_cell};
use crate::outcomes::{Ended, Limit, State};
use crate::stages::{Doing, List, Next, Progress, Stage, then_steps};
use crate::steps::stop;
use book::Book;
use errors::Error;
use sets::Parse;
use tokens::After;

// The element is added, and the list goes on or ends.
fn next_element(
    book: &Book,
    text: &[u8],
    store: &mut [u32],
    here: Progress,
    list: List,
    q: Parse,
    state: &mut State,
) -> Result<Stage, Ended>
    requires { Fitting book.now text.now }
    ensures { Stages book.now text.now store.old store.new here state.old (stage_of result state.new)
        (follows (Next.Elements list) (parse_of q) here) }
{
    let values = make(text, store, cells::chain(list.values, q.value), state)?;
    match tokens::after_element(text, list.comma, q.rest as usize) {
        After::Goes(y) => Ok(Stage {
            place: y as u32,
            items: here.items,
            doing: Doing::Elements(List {
                names: false,
                values,
                ..list
            }),
        }),
        After::Halts(y) => {
            let r = stop(
                book,
                text,
                store,
                here,
                values,
                list.closing,
                y as u32,
                state,
            )?;
            Ok(then_steps(r))
        }
    }
}

// The item is added, and the steps go on; or the list does.
pub fn next_of(
    book: &Book,
    text: &[u8],
    store: &mut [u32],
    here: Progress,
    next: Next,
    q: Parse,
    state: &mut State,
) -> Result<Stage, Ended>
    requires { Fitting book.now text.now }
    ensures { Stages book.now text.now store.old store.new here state.old (stage_of result state.new)
        (follows next (parse_of q) here) }
{
    match next {
        Next::Steps => {
            let items = with_cell(book, text, store, here.variant, here.items, q.value, state)?;
            Ok(Stage {
                place: q.rest,
                items,
                doing: Doing::Steps,
            })
        }
        Next::Elements(list) => next_element(book, text, store, here, list, q, state),
    }
}

// The failures of what follows the parses of a child, up to the i-th, or the limit that what follows the i-th met;
// before the first there is none to join. A limit met before it, where a run ends, counts as no failure.
pub fn after_parse(
    i: usize,
    before: Result<Option<Error>, Limit>,
    outcome: Result<Option<Error>, Limit>,
) -> Result<Option<Error>, Limit>
    ensures does { (s t : code.State) → ParseEnded i (outcome_of before s) (outcome_of outcome t)
        (outcome_of result t) }
    ensures limit { result_err result ≡ result_err outcome }
{
    let failure = outcome?;
    if i == 0 {
        return Ok(failure);
    }
    Ok(errors::either(before.unwrap_or(None), failure))
}
