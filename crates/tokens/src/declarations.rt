// A declared name at a place of the text. Document 02 d.
ghost use Rattle.std.specs.Prelude.{◌≡◌, ◌≤◌, length};
ghost use Rattle.semantics.specs.Numbers.{longest_text, nonterminal_wanted, declared_name};
ghost use Rattle.semantics.specs.Tokens.{kind_at};
ghost use Rattle.semantics.specs.Errors.{error};
ghost use Rattle.errors.specs.Maps.{error_of};
ghost use Rattle.tokens.specs.Declarations.{kind_of, Declares};

use crate::step_errors::{error_at, identifier_error};
use crate::tokens::{free_end, identifier_end, spelled};
use book::Book;
use characters::skip;
use errors::{Error, IDENTIFIER_WANTED, NONTERMINAL_WANTED};

// The argument of error 11 where a declared name is wanted.
const DECLARED_NAME: u32 = 32;

// The word for a kind: where it ends, and which kind it is for.
#[derive(Clone, Copy)]
struct KindAt {
    end: usize,
    kind: usize,
}

// A declared name: its kind, where its spelling begins and where it ends.
#[derive(Clone, Copy)]
pub struct Declaration {
    pub kind: usize,
    pub place: usize,
    pub end: usize,
}

#[tactic(auto, unfolding(semantics::specs::Tokens::kind_at))]
fn kind_at(book: &Book, text: &[u8], at: usize) -> Option<KindAt>
    ensures { kind_of result ≡ kind_at book.now text.now at }
{
    let end = identifier_end(text, at)?;
    let kind = book.kind_word(spelled(text, at, end))?;
    Some(KindAt { end, kind })
}

fn not_declared(at: u32) -> Error
    ensures { error_of result ≡ error at nonterminal_wanted declared_name }
{
    error_at(at, NONTERMINAL_WANTED, DECLARED_NAME)
}

// Where no word for a kind is, 11; behind one what an identifier's step gives.
pub fn declaration_at(book: &Book, text: &[u8], at: u32) -> Result<Declaration, Error>
    requires { length text.now ≤ longest_text }
    ensures { Declares book.now text.now at result }
{
    let Some(KindAt { end, kind }) = kind_at(book, text, at as usize) else {
        return Err(not_declared(at));
    };
    let place = skip(text, end);
    let Some(end) = free_end(book, text, place) else {
        return Err(identifier_error(book, text, place as u32, IDENTIFIER_WANTED));
    };
    Ok(Declaration { kind, place, end })
}
