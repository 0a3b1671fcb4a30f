// Reading an accepted book by its index. A number that the book doesn't have gets a fixed answer.
ghost use Rattle.std.specs.Prelude.{◌≡◌, ◌+◌, ◌≤◌, get_or, length};
ghost use Rattle.book.specs.Book.{nth_nonterminal, nth_variant, nth_step};
ghost use Rattle.book.specs.Index.{book_in};

use crate::index::{NONTERMINALS, STEPS, VARIANTS, count, first, place};
use crate::records::{Associativity, Mark, Nonterminal, Step, Variant, step_of};
use characters::byte_at;
use std::marker::Model;

// A book's bytes and its index. In a contract it is the book of the definitions. Each is lent for a time of its own:
// a word or a name is a part of the bytes, and outlives the index by which it was found.
#[derive(Drop)]
pub struct Book<'a, 'i> {
    pub(crate) bytes: &'a [u8],
    pub(crate) index: &'i [usize],
}

impl<'a, 'i> Model for Book<'a, 'i> {
    ghost use Rattle.book.specs.Book as value;

    ghost Value = { value.Book };

    ghost use Rattle.book.specs.View.{book_view};

    ghost view = { book_view };
}

// The byte k places after `at`, and 0 past the end.
fn byte_after(book: &[u8], at: usize, k: usize) -> u8
    requires { k ≤ 3 }
    ensures { result ≡ get_or book.now (at + k) 0 }
{
    if at < book.len() {
        byte_at(book, at + k)
    } else {
        0
    }
}

pub fn number_after(book: &[u8], at: usize, k: usize) -> usize
    requires { k ≤ 3 }
    ensures { result ≡ get_or book.now (at + k) 0 }
{
    byte_after(book, at, k) as usize
}

fn argument_after(book: &[u8], at: usize, k: usize) -> u32
    requires { k ≤ 3 }
    ensures { result ≡ get_or book.now (at + k) 0 }
{
    byte_after(book, at, k) as u32
}

impl<'a, 'i> Book<'a, 'i> {
    pub fn new(bytes: &'a [u8], index: &'i [usize]) -> Book<'a, 'i>
        ensures { result ≡ book_in bytes.now index.now }
    {
        Book { bytes, index }
    }

    // How many nonterminals there are, whatever the bytes are.
    #[tactic(auto, using(crate::proofs::ReadingLaws::nonterminals_length))]
    pub fn nonterminals(&self) -> usize
        ensures { result ≡ length self.now.nonterminals }
    {
        count(self.index, NONTERMINALS)
    }

    #[tactic(auto, using(crate::proofs::ReadingLaws::nonterminal_in, crate::proofs::ReadingLaws::nonterminal_out))]
    pub fn nonterminal(&self, i: usize) -> Nonterminal
        ensures { result ≡ nth_nonterminal self.now i }
    {
        if i < count(self.index, NONTERMINALS) {
            let at = place(self.index, NONTERMINALS, i);
            Nonterminal {
                mark: Mark::from(byte_after(self.bytes, at, 0)),
                first: first(self.index, NONTERMINALS, i),
                count: number_after(self.bytes, at, 1),
            }
        } else {
            Nonterminal {
                mark: Mark::Plain,
                first: 0,
                count: 0,
            }
        }
    }

    #[tactic(auto, using(crate::proofs::ReadingLaws::variant_in_lem, crate::proofs::ReadingLaws::variant_out))]
    pub fn variant(&self, j: usize) -> Variant
        ensures { result ≡ nth_variant self.now j }
    {
        if j < count(self.index, VARIANTS) {
            let at = place(self.index, VARIANTS, j);
            let flags = byte_after(self.bytes, at, 2);
            Variant {
                level: number_after(self.bytes, at, 0),
                associativity: Associativity::from(byte_after(self.bytes, at, 1)),
                committed: flags % 2 == 1,
                passing: 2 <= flags,
                first: first(self.index, VARIANTS, j),
                count: number_after(self.bytes, at, 3),
            }
        } else {
            Variant {
                level: 0,
                associativity: Associativity::Left,
                committed: false,
                passing: false,
                first: 0,
                count: 0,
            }
        }
    }

    #[tactic(auto, using(crate::proofs::ReadingLaws::step_in, crate::proofs::ReadingLaws::step_out))]
    pub fn step(&self, k: usize) -> Step
        ensures { result ≡ nth_step self.now.steps k }
    {
        if k < count(self.index, STEPS) {
            let at = place(self.index, STEPS, k);
            step_of(
                byte_after(self.bytes, at, 0),
                argument_after(self.bytes, at, 1),
                argument_after(self.bytes, at, 2),
                argument_after(self.bytes, at, 3),
            )
        } else {
            Step::Character(0)
        }
    }
}
