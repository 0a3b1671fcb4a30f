// Which error counts: the furthest, carried by value. Document 01, "Errors"; document 02 g.
//
// Every function equals a definition of `semantics` (Errors, Run) on all errors; specs/Maps.antt says what each struct
// and enum stands for. Where the run's definition takes a whole call, the function takes the call's numbers, and
// specs/Failures.antt proves that the two agree. `join_list` gives the furthest, least of a lent list of errors
// (specs/Lists.antt). No public function has a `requires`. The error of a step that takes nothing is made in `tokens`.
//
// The crate relies on the definitions of `semantics`, and assumes nothing.
#![tactic(auto)]

ghost use Rattle.std.specs.Prelude.{◌≡◌};
ghost use Rattle.semantics.specs.Errors.{wins as winsOver, beyond as errorBeyond};
ghost use Rattle.semantics.specs.Errors.{join_with, choice_error, chosen_failure};
ghost use Rattle.semantics.specs.Run.{either as either_of};
ghost use Rattle.errors.specs.Failures.{counted as countedOf, failed_call};
ghost use Rattle.errors.specs.Lists.{JoinsTo};
ghost use Rattle.errors.specs.Maps.{error_of, failure_of};

mod list;

pub use list::{ERROR_SIZE, ListError, join_list};

// ---- The kinds. Numbers and no enum: the errors that `join_list` is lent by C have any number for a kind.
pub const CHARACTER_WANTED: u32 = 1;

pub const WORD_WANTED: u32 = 2;

pub const IDENTIFIER_WANTED: u32 = 3;

pub const TEXT_ENDED: u32 = 4;

pub const VARIABLE_FOUND: u32 = 5;

pub const RESERVED_FOUND: u32 = 6;

pub const UNKNOWN_NAME: u32 = 7;

pub const WRONG_KIND: u32 = 8;

pub const DIGITS_WANTED: u32 = 9;

pub const TOO_LARGE: u32 = 10;

pub const NONTERMINAL_WANTED: u32 = 11;

pub const MORE_WANTED: u32 = 12;

// The place, which is compared, stands between the two numbers that are only handed on: side by side these would be
// read as one number of 64 bits, and the reading waits until both were written (docs/PERFORMANCE.md).
#[derive(Clone, Copy, PartialEq, Eq, Debug)]
pub struct Error {
    pub kind: u32,
    pub place: u32,
    pub argument: u32,
}

// "The furthest place wins, then least kind, then least argument". No derived order: the fields stand in another one,
// as said above.
fn wins(a: Error, b: Error) -> bool
    ensures { result ≡ winsOver (error_of a) (error_of b) }
{
    b.place < a.place
        || (a.place == b.place
            && (a.kind < b.kind || (a.kind == b.kind && a.argument <= b.argument)))
}

// Of two errors that which counts. In whatever order and grouping errors are joined, their furthest, least one is left
// (semantics, FurthestLaws; specs/ListLaws.antt has it of this function).
#[tactic(auto, unfolding(semantics::specs::Errors::join))]
pub fn join(a: Error, b: Error) -> Error
    ensures { JoinsTo a b result }
{
    if wins(a, b) { a } else { b }
}

// An error that counts only where it lies beyond a place.
#[tactic(auto, unfolding(semantics::specs::Errors::beyond))]
fn beyond(place: u32, e: Error) -> Option<Error>
    ensures { failure_of result ≡ errorBeyond place (error_of e) }
{
    if place < e.place { Some(e) } else { None }
}

// The errors of two variants: where one has none, the other's counts.
#[tactic(auto, unfolding(semantics::specs::Errors::join_with))]
pub fn join_with(first: Option<Error>, second: Option<Error>) -> Option<Error>
    ensures { failure_of result ≡ join_with (failure_of first) (failure_of second) }
{
    match (first, second) {
        (Some(a), Some(b)) => Some(join(a, b)),
        (None, _) => second,
        (_, None) => first,
    }
}

// What follows two parses: a parse on either side leaves no error.
#[tactic(auto, unfolding(semantics::specs::Run::either))]
pub fn either(first: Option<Error>, second: Option<Error>) -> Option<Error>
    ensures { failure_of result ≡ either_of (failure_of first) (failure_of second) }
{
    let e = first?;
    let f = second?;
    Some(join(e, f))
}

// Both sides of a choice failed: their error, where it consumed something since the choice, else that more was wanted
// there.
#[tactic(auto, unfolding(semantics::specs::Errors::choice_error))]
fn choice_error(at: u32, nonterminal: u32, a: Error, b: Error) -> Error
    ensures { error_of result ≡ choice_error at nonterminal (error_of a) (error_of b) }
{
    beyond(at, join(a, b)).unwrap_or(Error {
        place: at,
        kind: MORE_WANTED,
        argument: nonterminal,
    })
}

// Both sides of a choice at a place, in a variant of the nonterminal: a parse on either side leaves no error.
#[tactic(auto, unfolding(semantics::specs::Errors::chosen_failure))]
pub fn chosen(
    at: u32,
    nonterminal: u32,
    first: Option<Error>,
    second: Option<Error>,
) -> Option<Error>
    ensures { failure_of result ≡ chosen_failure at nonterminal (failure_of first) (failure_of second) }
{
    let a = first?;
    let b = second?;
    Some(choice_error(at, nonterminal, a, b))
}

// What a variant's failure counts for a call that begins at `start`: a variant that isn't committed counts nothing.
#[tactic(auto, unfolding(crate::specs::Failures::counted))]
pub fn counted(committed: bool, start: u32, failure: Option<Error>) -> Option<Error>
    ensures { failure_of result ≡ countedOf committed start (failure_of failure) }
{
    let e = failure?;
    if committed { beyond(start, e) } else { None }
}

// What a call without a parse gives: "With none, a call gives 11 at its start".
#[tactic(auto, unfolding(crate::specs::Failures::failed_call))]
pub fn failed_call(start: u32, nonterminal: u32, failure: Option<Error>) -> Error
    ensures { error_of result ≡ failed_call start nonterminal (failure_of failure) }
{
    failure.unwrap_or(Error {
        place: start,
        kind: NONTERMINAL_WANTED,
        argument: nonterminal,
    })
}
