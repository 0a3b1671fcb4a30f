// A call runs its variants; a variant runs its steps; a step calls a nonterminal again.
//
// A row's number is the levels of nesting left. `variant` and `one_run`, and `rounds` and `call` of left_recursion.rt,
// take the row of the call at hand; `enter`, the others here and those of names.rt take the first free row, which the
// next call or declared name gets. A path's own call has the row `here.call`, and its parse joins that row's set of the
// run as the path ends.
//
// What ends the cycle: a call runs its variants, a parse is followed, and what stands behind a declared name is read,
// with one level less; on one level the steps that remain become fewer.
ghost use Rattle.calls.specs.Lent.{table_in, SameSlice};
ghost use Rattle.transitions.specs.Results.{outcome_of, stage_of, done_with};
ghost use Rattle.transitions.specs.LayerContracts.{Does, Continues};
ghost use Rattle.parser.specs.Cycle.{CanRun, OnPath};
ghost use Rattle.parser.specs.Cycle.{runs_once, tries, descends, follows_each, chooses, resumes_from};

use crate::left_recursion::enter;
use crate::names::choose;
use book::Book;
use calls::RowsMut;
use errors::Error;
use transitions::{
    Doing, Ended, Limit, Next, Progress, Stage, State, after_parse, after_variant, begin_child,
    begin_variant, both_sides, finish, first_side, next_of, no_names, take_step,
};

// ---- Variants
// One variant of the call of a row, if its level reaches the minimum; `before` is the failure of the variants before
// it.
#[cycle(descent)]
fn variant(
    book: &Book,
    text: &[u8],
    store: &mut [u32],
    rows: &mut RowsMut,
    row: usize,
    minimum: usize,
    j: u32,
    before: Option<Error>,
    state: &mut State,
) -> Result<Option<Error>, Limit>
    requires { CanRun book.now text.now row }
    ensures does { Does book.now text.now store.old store.new (table_in rows.old) (table_in rows.new) state.old
        (outcome_of result state.new) (tries row minimum j (done_with before state.old)) }
    ensures slice { SameSlice rows.old rows.new }
{
    let variant = book.variant(j as usize);
    if variant.level < minimum {
        return Ok(before);
    }
    let start = rows.shared().start_of(row);
    let items = begin_variant(book, text, store, rows, row, j, state)?;
    let here = Progress {
        call: row,
        variant: j,
        step: variant.first as u32,
        remaining: variant.count as u32,
        place: start,
        items,
    };
    let begun = Ok(Stage {
        place: start,
        items,
        doing: Doing::Steps,
    });
    let outcome = steps(book, text, store, rows, row - 1, here, begun, state);
    after_variant(book, j, start, Ok(before), outcome)
}

// One run of the call of a row.
#[cycle(descent)]
pub fn one_run(
    book: &Book,
    text: &[u8],
    store: &mut [u32],
    rows: &mut RowsMut,
    row: usize,
    minimum: usize,
    state: &mut State,
) -> Result<Option<Error>, Limit>
    requires { CanRun book.now text.now row }
    ensures does { Does book.now text.now store.old store.new (table_in rows.old) (table_in rows.new) state.old
        (outcome_of result state.new) (runs_once row minimum) }
    ensures slice { SameSlice rows.old rows.new }
{
    let nonterminal = rows.shared().nonterminal_of(row);
    rows.clear_run(row);
    let called = book.nonterminal(nonterminal as usize);
    let mut failure = None;
    for k in 0..called.count {
        let j = (called.first + k) as u32;
        failure = variant(book, text, store, rows, row, minimum, j, failure, state)?;
    }
    Ok(failure)
}

// ---- Children
// The call of a child at the place reached, the Rust's `recurse`, and what follows its parses.
#[cycle(descent)]
fn descend(
    book: &Book,
    text: &[u8],
    store: &mut [u32],
    rows: &mut RowsMut,
    free: usize,
    here: Progress,
    next: Next,
    nonterminal: u32,
    state: &mut State,
) -> Result<Option<Error>, Limit>
    requires { OnPath book.now text.now free here }
    ensures does { Does book.now text.now store.old store.new (table_in rows.old) (table_in rows.new) state.old
        (outcome_of result state.new) (descends free here next nonterminal) }
    ensures slice { SameSlice rows.old rows.new }
{
    let binder = rows.shared().inherited_binder(here.call);
    let at = begin_child(text, rows, here);
    let child = enter(
        book,
        text,
        store,
        rows,
        free,
        binder,
        nonterminal,
        at,
        state,
    );
    follow(book, text, store, rows, free, here, next, child, state)
}

// What follows each parse that the row found, one level further in; a child that failed or met a limit has none.
#[cycle(descent)]
pub fn follow(
    book: &Book,
    text: &[u8],
    store: &mut [u32],
    rows: &mut RowsMut,
    free: usize,
    here: Progress,
    next: Next,
    child: Result<Option<Error>, Limit>,
    state: &mut State,
) -> Result<Option<Error>, Limit>
    requires { OnPath book.now text.now free here }
    ensures continues { Continues book.now text.now store.old store.new (table_in rows.old) (table_in rows.new)
        (outcome_of child state.old) (outcome_of result state.new) (follows_each free here next) }
    ensures slice { SameSlice rows.old rows.new }
{
    let failure = child?;
    if failure.is_some() {
        return Ok(failure);
    }
    let parses = rows.shared().parse_count(free);
    let mut all = failure;
    for i in 0..parses {
        if free == 0 {
            return Err(Limit::TooDeep);
        }
        let q = rows.shared().nth_parse(free, i);
        let begun = next_of(book, text, store, here, next, q, state);
        let outcome = steps(book, text, store, rows, free - 1, here, begun, state);
        all = after_parse(i, Ok(all), outcome)?;
    }
    Ok(all)
}

// ---- Choices
// An optional child, or the elements of a list: absent, or stop, comes before one more.
#[cycle(descent)]
fn choice(
    book: &Book,
    text: &[u8],
    store: &mut [u32],
    rows: &mut RowsMut,
    free: usize,
    here: Progress,
    next: Next,
    nonterminal: u32,
    state: &mut State,
) -> Result<Option<Error>, Limit>
    requires { OnPath book.now text.now free here }
    ensures does { Does book.now text.now store.old store.new (table_in rows.old) (table_in rows.new) state.old
        (outcome_of result state.new) (chooses free here next nonterminal) }
    ensures slice { SameSlice rows.old rows.new }
{
    let begun = first_side(book, text, store, here, next, state);
    let first = steps(book, text, store, rows, free, here, begun, state)?;
    let second = descend(
        book,
        text,
        store,
        rows,
        free,
        here,
        next,
        nonterminal,
        state,
    );
    both_sides(text, &rows.shared(), here, Ok(first), second)
}

// ---- Steps
// Goes on with a path from what a part of it came to, at a place, with the items so far and what comes next: first
// that, then the steps that remain, up to a child or to the variant's end. The place and the items of `from` aren't
// read. A path that a limit or a failure has ended stays ended.
#[cycle(descent)]
fn steps(
    book: &Book,
    text: &[u8],
    store: &mut [u32],
    rows: &mut RowsMut,
    free: usize,
    from: Progress,
    begun: Result<Stage, Ended>,
    state: &mut State,
) -> Result<Option<Error>, Limit>
    requires { OnPath book.now text.now free from }
    ensures continues { Continues book.now text.now store.old store.new (table_in rows.old) (table_in rows.new)
        (stage_of begun state.old).outcome (outcome_of result state.new)
        (resumes_from free from (stage_of begun state.old)) }
    ensures slice { SameSlice rows.old rows.new }
{
    let mut stage = match begun {
        Ok(stage) => stage,
        Err(ended) => return ended.outcome(),
    };
    let mut step = from.step;
    let mut remaining = from.remaining;
    // No `for` over the steps: a child, or a list, may come before the first of them.
    loop {
        let here = Progress {
            step,
            remaining,
            place: stage.place,
            items: stage.items,
            ..from
        };
        match stage.doing {
            Doing::Steps => {
                if remaining == 0 {
                    finish(book, text, store, rows, here, state)?;
                    return Ok(None);
                }
                stage = match take_step(book, text, store, &rows.shared(), here, state) {
                    Ok(stage) => stage,
                    Err(ended) => return ended.outcome(),
                };
                step += 1;
                remaining -= 1;
            }
            Doing::Child(nonterminal) => {
                return descend(
                    book,
                    text,
                    store,
                    rows,
                    free,
                    here,
                    Next::Steps,
                    nonterminal,
                    state,
                );
            }
            Doing::Optional(nonterminal) => {
                return choice(
                    book,
                    text,
                    store,
                    rows,
                    free,
                    here,
                    Next::Steps,
                    nonterminal,
                    state,
                );
            }
            Doing::Elements(list) => {
                if list.names {
                    return choose(book, text, store, rows, free, here, no_names(list), state);
                }
                let next = Next::Elements(list);
                return choice(
                    book,
                    text,
                    store,
                    rows,
                    free,
                    here,
                    next,
                    list.nonterminal,
                    state,
                );
            }
        }
    }
}
