// Words and starting names by their numbers, whether a spelling is reserved, which starting name it is, and which
// kind's word.
ghost use Rattle.std.specs.Prelude.{◌≡◌, ◌+◌, ◌≤◌, length, take};
ghost use Rattle.characters.specs.Spelling.{same};
ghost use Rattle.book.specs.Book.{nth_entry, reserved_as, is_reserved, lookup_name, kind_word};
ghost use Rattle.book.specs.Index.{steps_at, entries_in, entry_from};
ghost use Rattle.book.specs.Numbers.{kinds};

use crate::index::{NAMES, WORDS, count, place};
use crate::limits::KINDS;
use crate::reading::{Book, number_after};
use characters::{part, same_bytes};

// A starting name, by its number.
#[derive(Clone, Copy, PartialEq, Eq)]
pub struct StartingName {
    pub number: usize,
    pub kind: usize,
}

// The spelling of the entry at a place of the book.
fn spelling_from(book: &[u8], at: usize) -> &[u8]
    ensures { result.now ≡ (entry_from book.now at).spelling }
{
    if at < book.len() {
        part(book, at + 2, number_after(book, at, 1))
    } else {
        part(book, at, 0)
    }
}

// The spelling of entry i of a section, a part of the book.
#[tactic(auto, using(crate::proofs::ReadingLaws::entry_in, crate::proofs::ReadingLaws::entry_out))]
fn spelling<'a>(book: &'a [u8], index: &[usize], base: usize, i: usize) -> &'a [u8]
    requires { base ≤ steps_at }
    ensures { result.now ≡ (nth_entry (entries_in book.now index.now base) i).spelling }
{
    if i < count(index, base) {
        spelling_from(book, place(index, base, i))
    } else {
        part(book, 0, 0)
    }
}

// The number that stands before the spelling of entry i.
#[tactic(auto, using(crate::proofs::ReadingLaws::entry_in, crate::proofs::ReadingLaws::entry_out))]
fn label(book: &[u8], index: &[usize], base: usize, i: usize) -> usize
    requires { base ≤ steps_at }
    ensures { result ≡ (nth_entry (entries_in book.now index.now base) i).label }
{
    if i < count(index, base) {
        number_after(book, place(index, base, i), 0)
    } else {
        0
    }
}

impl<'a> Book<'a, '_> {
    #[tactic(auto, using(crate::proofs::ReadingLaws::words_length))]
    fn words(&self) -> usize
        ensures { result ≡ length self.now.words }
    {
        count(self.index, WORDS)
    }

    #[tactic(auto, unfolding(crate::specs::Index::book_in))]
    pub fn word(&self, i: usize) -> &'a [u8]
        ensures { result.now ≡ (nth_entry self.now.words i).spelling }
    {
        spelling(self.bytes, self.index, WORDS, i)
    }

    // 1 for a reserved word, 0 for another.
    #[tactic(auto, unfolding(crate::specs::Index::book_in))]
    pub fn word_label(&self, i: usize) -> usize
        ensures { result ≡ (nth_entry self.now.words i).label }
    {
        label(self.bytes, self.index, WORDS, i)
    }

    #[tactic(auto, using(crate::proofs::ReadingLaws::names_length))]
    fn names(&self) -> usize
        ensures { result ≡ length self.now.names }
    {
        count(self.index, NAMES)
    }

    #[tactic(auto, unfolding(crate::specs::Index::book_in))]
    pub fn name(&self, i: usize) -> &'a [u8]
        ensures { result.now ≡ (nth_entry self.now.names i).spelling }
    {
        spelling(self.bytes, self.index, NAMES, i)
    }

    #[tactic(auto, unfolding(crate::specs::Index::book_in))]
    pub fn name_kind(&self, i: usize) -> usize
        ensures { result ≡ (nth_entry self.now.names i).label }
    {
        label(self.bytes, self.index, NAMES, i)
    }

    // Whether word i is reserved and spelled so.
    fn reserved_as(&self, i: usize, spelling: &[u8]) -> bool
        ensures { result ≡ reserved_as spelling.now (nth_entry self.now.words i) }
    {
        self.word_label(i) == 1 && same_bytes(spelling, self.word(i))
    }

    // Whether an equal word is reserved.
    pub fn is_reserved(&self, spelling: &[u8]) -> bool
        ensures { result ≡ is_reserved self.now.words spelling.now }
    {
        (0..self.words()).any(|i| self.reserved_as(i, spelling))
    }

    // The last equal starting name.
    pub fn lookup(&self, spelling: &[u8]) -> Option<StartingName>
        ensures { result ≡ lookup_name self.now.names spelling.now }
    {
        for i in (0..self.names()).rev() {
            if same_bytes(spelling, self.name(i)) {
                return Some(StartingName {
                    number: i,
                    kind: self.name_kind(i),
                });
            }
        }
        None
    }

    // How many words name a kind.
    fn kind_words(&self) -> usize
        ensures { result ≡ length (take kinds self.now.words) }
    {
        self.words().min(KINDS)
    }

    // The kind whose word an equal one is: the first.
    pub fn kind_word(&self, spelling: &[u8]) -> Option<usize>
        ensures { result ≡ kind_word self.now.words spelling.now }
    {
        (0..self.kind_words()).find(|&kind| same_bytes(spelling, self.word(kind)))
    }
}
