// What a step of the book takes at a place, and what a list does behind an element and at its end. "Every token skips
// first; what follows it is unskipped".
#![tactic(auto, unfolding(semantics::specs::Steps::step_at))]

ghost use Rattle.std.specs.Prelude.{◌≡◌, ◌≤◌, true, false, None, Some};
ghost use Rattle.book.specs.Book.{Book};
ghost use Rattle.book.specs.declared.records.Step.{Step};
ghost use Rattle.semantics.specs.Numbers.{most_nesting};
ghost use Rattle.semantics.specs.Uses.{Scope};
ghost use Rattle.semantics.specs.Run.{closing_code};
ghost use Rattle.semantics.specs.Steps.{read, step_at, after_element, closed as closedAt};
ghost use Rattle.run_model.specs.Rows.{scope_in};
ghost use Rattle.tokens.specs.Maps.{variable_of, taken_of, variable_taken, has_kind, after_of, list_of};

use crate::tokens::{
    Variable, character_end, free_end, identifier_end, reserved_at, span_length, spelled,
    variable_in_call,
};
use book::{Book, Step};
use calls::Rows;
use cells::{DebruijnIndex, VarIndex};
use characters::{Number, number_at, same_bytes, skip};

// What a token adds: an identifier by the place and length of its spelling, a number, a variable by its name's number
// and kind, or, if it is declared, by its binder's depth and its index within that.
#[derive(Clone, Copy)]
pub enum Item {
    Name { place: usize, size: usize },
    Number(u64),
    Variable { number: usize, kind: usize },
    Declared(DebruijnIndex, VarIndex),
}

// What a step takes at a place.
#[derive(Clone, Copy)]
pub enum Taken {
    // kinds 0 to 7: where the token ends, and what it adds, if anything
    Token {
        next: usize,
        item: Option<Item>,
    },
    // kinds 8 and 9: a child of a nonterminal, or perhaps one
    Child(u32),
    Optional(u32),
    // kinds 10 to 13: a list begins, with commas or without, up to a closing or none; kind 14 with its opening: a list
    // of declared names does, and the nonterminal is the body's
    List {
        comma: bool,
        names: bool,
        nonterminal: u32,
        closing: Option<u32>,
        place: usize,
    },
    // kind 13 without its opening: the empty list, at a place
    Unopened(usize),
    // kind 14 without its opening: the body alone
    Body(u32),
}

// After an element a list goes on at a place, or halts there. No Result: to halt is no error.
#[derive(Clone, Copy)]
pub enum After {
    Goes(usize),
    Halts(usize),
}

// A token that adds nothing.
fn bare(next: usize) -> Taken
    ensures { taken_of (Some result) ≡ read next None }
{
    Taken::Token { next, item: None }
}

fn character(text: &[u8], a: u32, x: usize) -> Option<Taken>
    ensures { (book : Book) (scope : Scope) →
        taken_of result ≡ step_at book text.now scope (Step.Character a) x }
{
    character_end(text, a, x).map(bare)
}

fn word_at(book: &Book, text: &[u8], a: u32, x: usize) -> Option<Taken>
    ensures { (scope : Scope) → taken_of result ≡ step_at book.now text.now scope (Step.Word a) x }
{
    let at = skip(text, x);
    let end = identifier_end(text, at)?;
    if same_bytes(spelled(text, at, end), book.word(a as usize)) {
        Some(bare(end))
    } else {
        None
    }
}

fn identifier(book: &Book, text: &[u8], x: usize) -> Option<Taken>
    ensures { (scope : Scope) → taken_of result ≡ step_at book.now text.now scope Step.Identifier x }
{
    let place = skip(text, x);
    let next = free_end(book, text, place)?;
    let size = span_length(place, next);
    Some(Taken::Token {
        next,
        item: Some(Item::Name { place, size }),
    })
}

fn number(text: &[u8], x: usize) -> Option<Taken>
    ensures { (book : Book) (scope : Scope) → taken_of result ≡ step_at book text.now scope Step.Number x }
{
    match number_at(text, skip(text, x)) {
        Number::Value { value, end } => Some(Taken::Token {
            next: end,
            item: Some(Item::Number(value)),
        }),
        Number::TooLarge | Number::Nothing => None,
    }
}

// A variable that was found.
fn read_variable(variable: Variable) -> Taken
    ensures { taken_of (Some result) ≡ variable_taken (variable_of (Some variable)) }
{
    match variable {
        Variable::Starting { end, number, kind } => Taken::Token {
            next: end,
            item: Some(Item::Variable { number, kind }),
        },
        Variable::Declared {
            end,
            depth,
            index,
            ..
        } => Taken::Token {
            next: end,
            item: Some(Item::Declared(depth, index)),
        },
    }
}

fn has_kind(variable: Variable, wanted: u32) -> bool
    ensures { result ≡ has_kind (variable_of (Some variable)) wanted }
{
    match variable {
        Variable::Starting { kind, .. } => kind == wanted as usize,
        Variable::Declared { kind, .. } => kind == wanted,
    }
}

fn variable(book: &Book, text: &[u8], rows: &Rows, row: usize, x: usize) -> Option<Taken>
    requires { row ≤ most_nesting }
    ensures { taken_of result ≡ step_at book.now text.now (scope_in text.now rows.now row) Step.Variable x }
{
    variable_in_call(book, text, rows, row, skip(text, x)).map(read_variable)
}

fn variable_of_kind(
    book: &Book,
    text: &[u8],
    rows: &Rows,
    row: usize,
    a: u32,
    x: usize,
) -> Option<Taken>
    requires { row ≤ most_nesting }
    ensures { taken_of result ≡ step_at book.now text.now (scope_in text.now rows.now row)
        (Step.VariableOfKind a) x }
{
    let found = variable_in_call(book, text, rows, row, skip(text, x))?;
    if has_kind(found, a) {
        Some(read_variable(found))
    } else {
        None
    }
}

// Kinds 6 and 7 look behind what is skipped, and don't move the place.
fn reject_variable(book: &Book, text: &[u8], rows: &Rows, row: usize, x: usize) -> Option<Taken>
    requires { row ≤ most_nesting }
    ensures { taken_of result ≡ step_at book.now text.now (scope_in text.now rows.now row) Step.RejectVariable x }
{
    match variable_in_call(book, text, rows, row, skip(text, x)) {
        Some(_) => None,
        None => Some(bare(x)),
    }
}

fn reject_reserved(book: &Book, text: &[u8], x: usize) -> Option<Taken>
    ensures { (scope : Scope) → taken_of result ≡ step_at book.now text.now scope Step.RejectReserved x }
{
    if reserved_at(book, text, skip(text, x)) {
        None
    } else {
        Some(bare(x))
    }
}

// A list with commas up to a closing, behind its opening.
fn delimited_list(names: bool, nonterminal: u32, closing: u32, place: usize) -> Taken
    ensures { taken_of (Some result) ≡ list_of true names nonterminal (Some closing) place }
{
    Taken::List {
        comma: true,
        names,
        nonterminal,
        closing: Some(closing),
        place,
    }
}

fn delimited(text: &[u8], nonterminal: u32, opening: u32, closing: u32, x: usize) -> Option<Taken>
    ensures { (book : Book) (scope : Scope) →
        taken_of result ≡ step_at book text.now scope (Step.Delimited nonterminal opening closing) x }
{
    let place = character_end(text, opening, x)?;
    Some(delimited_list(false, nonterminal, closing, place))
}

// An opening looked for in vain still leaves the place skipped.
fn optional_delimited(text: &[u8], nonterminal: u32, opening: u32, closing: u32, x: usize) -> Taken
    ensures { (book : Book) (scope : Scope) →
        taken_of (Some result) ≡ step_at book text.now scope (Step.OptionalDelimited nonterminal opening closing) x }
{
    match character_end(text, opening, x) {
        Some(place) => delimited_list(false, nonterminal, closing, place),
        None => Taken::Unopened(skip(text, x)),
    }
}

// Without the opening the body stands where it was looked for.
#[tactic(auto, unfolding(semantics::specs::Steps::step_at, semantics::specs::Run::closing_code))]
fn binder(text: &[u8], body: u32, opening: u32, closing: u32, x: usize) -> Taken
    ensures { (book : Book) (scope : Scope) →
        taken_of (Some result) ≡ step_at book text.now scope (Step.Binder body opening closing) x }
{
    match character_end(text, opening, x) {
        Some(place) => delimited_list(true, body, closing, place),
        None => Taken::Body(body),
    }
}

// A list of a nonterminal without a closing.
fn open_list(comma: bool, nonterminal: u32, place: usize) -> Taken
    ensures { taken_of (Some result) ≡ list_of comma false nonterminal None place }
{
    Taken::List {
        comma,
        names: false,
        nonterminal,
        closing: None,
        place,
    }
}

// What a step of a row's call takes at a place, by its kind; none where there is no such token, or no opening of kind
// 12. Book, text and rows stay parameters: the rows are lent for writing between two steps, so no struct can hold them.
pub fn step_at(
    book: &Book,
    text: &[u8],
    rows: &Rows,
    row: usize,
    step: Step,
    x: usize,
) -> Option<Taken>
    requires { row ≤ most_nesting }
    ensures { taken_of result ≡ step_at book.now text.now (scope_in text.now rows.now row) step x }
{
    match step {
        Step::Character(a) => character(text, a, x),
        Step::Word(a) => word_at(book, text, a, x),
        Step::Identifier => identifier(book, text, x),
        Step::Number => number(text, x),
        Step::Variable => variable(book, text, rows, row, x),
        Step::VariableOfKind(a) => variable_of_kind(book, text, rows, row, a, x),
        Step::RejectVariable => reject_variable(book, text, rows, row, x),
        Step::RejectReserved => reject_reserved(book, text, x),
        Step::Nonterminal(a) => Some(Taken::Child(a)),
        Step::Optional(a) => Some(Taken::Optional(a)),
        Step::Many(a) => Some(open_list(false, a, x)),
        Step::CommaList(a) => Some(open_list(true, a, x)),
        Step::Delimited {
            nonterminal,
            opening,
            closing,
        } => delimited(text, nonterminal, opening, closing, x),
        Step::OptionalDelimited {
            nonterminal,
            opening,
            closing,
        } => Some(optional_delimited(text, nonterminal, opening, closing, x)),
        Step::Binder {
            body,
            opening,
            closing,
        } => Some(binder(text, body, opening, closing, x)),
    }
}

// ---- Lists
const COMMA: u32 = 44;

// A comma that is there is taken; one looked for in vain still leaves the place skipped.
#[tactic(auto, unfolding(semantics::specs::Steps::after_element))]
pub fn after_element(text: &[u8], comma: bool, place: usize) -> After
    ensures { after_of result ≡ after_element text.now comma place }
{
    if !comma {
        return After::Goes(place);
    }
    match character_end(text, COMMA, place) {
        Some(end) => After::Goes(end),
        None => After::Halts(skip(text, place)),
    }
}

// Behind a list: the closing of a delimited one, or nothing.
#[tactic(auto, unfolding(semantics::specs::Steps::closed))]
pub fn closed(text: &[u8], closing: Option<u32>, place: usize) -> Option<usize>
    ensures { result ≡ closedAt text.now closing place }
{
    match closing {
        Some(c) => character_end(text, c, place),
        None => Some(place),
    }
}

// The code of a closing, 0 where there is none: a number, as the run's definition has it.
#[tactic(auto, unfolding(semantics::specs::Run::closing_code))]
pub fn closing_code(closing: Option<u32>) -> u32
    ensures { result ≡ closing_code closing }
{
    closing.unwrap_or(0)
}
