// The error of a step that takes nothing, each at a skipped place.
#![tactic(auto, unfolding(semantics::specs::Errors::identifier_error, semantics::specs::Errors::step_error))]

ghost use Rattle.std.specs.Prelude.{◌≡◌, ◌≤◌};
ghost use Rattle.book.specs.Book.{Book};
ghost use Rattle.book.specs.declared.records.Step.{Step};
ghost use Rattle.semantics.specs.Numbers.{most_nesting, character_wanted, identifier_wanted};
ghost use Rattle.semantics.specs.Uses.{Scope};
ghost use Rattle.semantics.specs.Errors.{error, identifier_error, step_error};
ghost use Rattle.semantics.specs.Run.{closing_code};
ghost use Rattle.errors.specs.Maps.{error_of};
ghost use Rattle.run_model.specs.Rows.{scope_in};

use crate::steps::closing_code;
use crate::tokens::{identifier_end, reserved_at, variable_in_call};
use book::{Book, Step};
use calls::Rows;
use characters::{Number, number_at};
use errors::{
    CHARACTER_WANTED, DIGITS_WANTED, Error, IDENTIFIER_WANTED, NONTERMINAL_WANTED, RESERVED_FOUND,
    TEXT_ENDED, TOO_LARGE, UNKNOWN_NAME, VARIABLE_FOUND, WORD_WANTED, WRONG_KIND,
};

pub fn error_at(place: u32, kind: u32, argument: u32) -> Error
    ensures { error_of result ≡ error place kind argument }
{
    Error {
        place,
        kind,
        argument,
    }
}

// The closing of a list is missing: 1, with its code.
pub fn closing_error(closing: Option<u32>, at: u32) -> Error
    ensures { error_of result ≡ error at character_wanted (closing_code closing) }
{
    error_at(at, CHARACTER_WANTED, closing_code(closing))
}

// An identifier was wanted: the text ended, none is there, or it is reserved; else an error of another kind.
pub fn identifier_error(book: &Book, text: &[u8], at: u32, other: u32) -> Error
    ensures { error_of result ≡ identifier_error book.now text.now at (error at other 0) }
{
    let place = at as usize;
    if place == text.len() {
        return error_at(at, TEXT_ENDED, 0);
    }
    if reserved_at(book, text, place) {
        return error_at(at, RESERVED_FOUND, 0);
    }
    match identifier_end(text, place) {
        Some(_) => error_at(at, other, 0),
        None => error_at(at, IDENTIFIER_WANTED, 0),
    }
}

// Digits were wanted, or the number is too large; where a number is, this isn't asked for.
fn number_error(text: &[u8], at: u32) -> Error
    ensures { (book : Book) (scope : Scope) →
        error_of result ≡ step_error book text.now scope Step.Number at }
{
    let place = at as usize;
    if place == text.len() {
        return error_at(at, TEXT_ENDED, 0);
    }
    match number_at(text, place) {
        Number::Nothing => error_at(at, DIGITS_WANTED, 0),
        Number::TooLarge | Number::Value { .. } => error_at(at, TOO_LARGE, 0),
    }
}

// No variable of the kind: a name of another kind, reserved or not, or none.
#[tactic(auto, unfolding(semantics::specs::Errors::step_error, semantics::specs::Tokens::is_some))]
fn kind_error(book: &Book, text: &[u8], rows: &Rows, row: usize, kind: u32, at: u32) -> Error
    requires { row ≤ most_nesting }
    ensures { error_of result ≡ step_error book.now text.now (scope_in text.now rows.now row)
        (Step.VariableOfKind kind) at }
{
    match variable_in_call(book, text, rows, row, at as usize) {
        Some(_) => error_at(at, WRONG_KIND, kind),
        None => identifier_error(book, text, at, UNKNOWN_NAME),
    }
}

// The error of a step of a row's call that takes nothing.
pub fn step_error(book: &Book, text: &[u8], rows: &Rows, row: usize, step: Step, at: u32) -> Error
    requires { row ≤ most_nesting }
    ensures { error_of result ≡ step_error book.now text.now (scope_in text.now rows.now row) step at }
{
    match step {
        Step::Character(a) => error_at(at, CHARACTER_WANTED, a),
        Step::Word(a) => error_at(at, WORD_WANTED, a),
        Step::Identifier => identifier_error(book, text, at, IDENTIFIER_WANTED),
        Step::Number => number_error(text, at),
        Step::Variable => identifier_error(book, text, at, UNKNOWN_NAME),
        Step::VariableOfKind(a) => kind_error(book, text, rows, row, a, at),
        Step::RejectVariable => error_at(at, VARIABLE_FOUND, 0),
        Step::RejectReserved => error_at(at, RESERVED_FOUND, 0),
        Step::Delimited { opening, .. } => error_at(at, CHARACTER_WANTED, opening),
        Step::Nonterminal(a)
        | Step::Optional(a)
        | Step::Many(a)
        | Step::CommaList(a)
        | Step::OptionalDelimited { nonterminal: a, .. }
        | Step::Binder { body: a, .. } => error_at(at, NONTERMINAL_WANTED, a),
    }
}
