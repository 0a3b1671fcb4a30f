// The first side of a choice, and both sides together.
ghost use Rattle.std.specs.Prelude.{◌≡◌, ◌≤◌, IfOk};
ghost use Rattle.std.specs.Result.{result_err};
ghost use Rattle.semantics.specs.Numbers.{most_nesting};
ghost use Rattle.transitions.specs.Results.{reached_of, stage_of, outcome_of};
ghost use Rattle.transitions.specs.Steps.{Chosen};
ghost use Rattle.transitions.specs.declared.outcomes.State as code;
ghost use Rattle.transitions.specs.LayerContracts.{Short, Fitting, Reaches, Stages, first_side};
ghost use Rattle.transitions.specs.declared.stages.Next.{Next};
ghost use Rattle.transitions.specs.declared.stages.Doing.TheVariants.{Steps};

use crate::outcomes::{Ended, Limit, State, spend};
use crate::places::skipped;
use crate::stages::{Doing, List, Next, Progress, Reached, Stage, then_steps};
use crate::steps::{absent, stop};
use book::Book;
use calls::Rows;
use errors::Error;

// "stop comes before one more"; one unit for both.
fn first_stop(
    book: &Book,
    text: &[u8],
    store: &mut [u32],
    here: Progress,
    list: List,
    state: &mut State,
) -> Result<Reached, Ended>
    requires { Fitting book.now text.now }
    ensures { Reaches book.now text.now store.old store.new here state.old (reached_of result state.new)
        (first_side (Next.Elements list) here) }
{
    spend(state)?;
    stop(
        book,
        text,
        store,
        here,
        list.values,
        list.closing,
        here.place,
        state,
    )
}

// The first side of a choice. `next` tells its sort: the steps that are left, of an optional child; or the list. Behind
// it the steps that are left come next.
pub fn first_side(
    book: &Book,
    text: &[u8],
    store: &mut [u32],
    here: Progress,
    next: Next,
    state: &mut State,
) -> Result<Stage, Ended>
    requires { Fitting book.now text.now }
    ensures does { Stages book.now text.now store.old store.new here state.old (stage_of result state.new)
        (first_side next here) }
    ensures steps { IfOk result (λ g. g.doing ≡ Steps) }
{
    match next {
        Next::Steps => {
            let items = absent(book, text, store, here, state)?;
            Ok(Stage {
                place: here.place,
                items,
                doing: Doing::Steps,
            })
        }
        Next::Elements(list) => {
            let r = first_stop(book, text, store, here, list, state)?;
            Ok(then_steps(r))
        }
    }
}

// Both sides of a choice: their failures, or the limit that the second met. A limit of the first, where a run ends
// before there is a second, counts as no failure.
pub fn both_sides(
    text: &[u8],
    rows: &Rows,
    here: Progress,
    first: Result<Option<Error>, Limit>,
    second: Result<Option<Error>, Limit>,
) -> Result<Option<Error>, Limit>
    requires { (here.call ≤ most_nesting) × Short text.now }
    ensures does { (s t : code.State) → Chosen text.now rows.now here.call here.place (outcome_of first s)
        (outcome_of second t) (outcome_of result t) }
    ensures limit { result_err result ≡ result_err second }
{
    let failure = second?;
    let at = skipped(text, here.place);
    Ok(errors::chosen(
        at,
        rows.nonterminal_of(here.call),
        first.unwrap_or(None),
        failure,
    ))
}
