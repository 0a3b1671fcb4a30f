// What stands at a place of the text: a character, an identifier, a reserved word, a variable.
ghost use Rattle.std.specs.Prelude.{◌≡◌, ◌≤◌, ◌-◌};
ghost use Rattle.semantics.specs.Numbers.{most_nesting};
ghost use Rattle.semantics.specs.Tokens.{character_end, identifier_end, reserved_at, free_end, variable_at};
ghost use Rattle.semantics.specs.Tokens.{spelled as spelledBetween};
ghost use Rattle.run_model.specs.Rows.{scope_at, scope_in};
ghost use Rattle.tokens.specs.Maps.{variable_of, starting_name};

use book::{Book, StartingName};
use calls::{Declared, Rows};
use cells::{DebruijnIndex, VarIndex};
use characters::{identifier_at, part, skip};

// A variable: where it ends, its kind, and which name it is: a starting name by its number, a declared one by its
// binder's depth outwards and its index within that binder.
#[derive(Clone, Copy)]
pub enum Variable {
    Starting {
        end: usize,
        number: usize,
        kind: usize,
    },
    Declared {
        end: usize,
        depth: DebruijnIndex,
        index: VarIndex,
        kind: u32,
    },
}

// The end of the character `a`, after skipping.
#[tactic(auto, unfolding(semantics::specs::Tokens::character_end))]
pub fn character_end(text: &[u8], a: u32, place: usize) -> Option<usize>
    ensures { result ≡ character_end text.now a place }
{
    let at = skip(text, place);
    if at < text.len() && text[at] as u32 == a {
        Some(at + 1)
    } else {
        None
    }
}

// `identifier_at`, by the name that the run's definitions have for it.
#[tactic(auto, unfolding(semantics::specs::Tokens::identifier_end))]
pub fn identifier_end(text: &[u8], at: usize) -> Option<usize>
    ensures { result ≡ identifier_end text.now at }
{
    identifier_at(text, at)
}

// How much stands between two places.
pub fn span_length(at: usize, end: usize) -> usize
    ensures { result ≡ end - at }
{
    end.saturating_sub(at)
}

// What stands between two places.
pub fn spelled(text: &[u8], at: usize, end: usize) -> &[u8]
    ensures { result.now ≡ spelledBetween text.now at end }
{
    part(text, at, span_length(at, end))
}

#[tactic(auto, unfolding(semantics::specs::Tokens::reserved_at))]
pub fn reserved_at(book: &Book, text: &[u8], at: usize) -> bool
    ensures { result ≡ reserved_at book.now text.now at }
{
    match identifier_end(text, at) {
        Some(end) => book.is_reserved(spelled(text, at, end)),
        None => false,
    }
}

// The end of an identifier that is not reserved.
#[tactic(auto, unfolding(semantics::specs::Tokens::reserved_at, semantics::specs::Tokens::free_end))]
pub fn free_end(book: &Book, text: &[u8], at: usize) -> Option<usize>
    ensures { result ≡ free_end book.now text.now at }
{
    let end = identifier_end(text, at)?;
    if book.is_reserved(spelled(text, at, end)) {
        None
    } else {
        Some(end)
    }
}

// The starting name that a part of the text is.
fn starting_name(book: &Book, text: &[u8], at: usize, end: usize) -> Option<Variable>
    ensures { variable_of result ≡ starting_name book.now text.now at end }
{
    let StartingName { number, kind } = book.lookup(spelled(text, at, end))?;
    Some(Variable::Starting { end, number, kind })
}

// A name, reserved or not, of the scope of a use in a row and with a binder: the innermost declared one, or a starting
// name.
#[tactic(auto, unfolding(semantics::specs::Tokens::variable_at))]
pub fn variable_at(
    book: &Book,
    text: &[u8],
    rows: &Rows,
    row: usize,
    binder: u32,
    at: usize,
) -> Option<Variable>
    requires { row ≤ most_nesting }
    ensures { variable_of result ≡ variable_at book.now text.now (scope_at text.now rows.now row binder) at }
{
    let end = identifier_end(text, at)?;
    match rows.declared_at(text, row, binder, at, span_length(at, end)) {
        Some(Declared { depth, index, kind }) => Some(Variable::Declared {
            end,
            depth,
            index,
            kind,
        }),
        None => starting_name(book, text, at, end),
    }
}

// A name, reserved or not, of the scope of a row's call.
pub fn variable_in_call(
    book: &Book,
    text: &[u8],
    rows: &Rows,
    row: usize,
    at: usize,
) -> Option<Variable>
    requires { row ≤ most_nesting }
    ensures { variable_of result ≡ variable_at book.now text.now (scope_in text.now rows.now row) at }
{
    variable_at(book, text, rows, row, rows.binder_of(row), at)
}
