// The nonterminals of mark 3. Such a one has one variant, with one step, so its first variant and that variant's first
// step are its only ones.
ghost use Rattle.std.specs.Prelude.{◌≡◌, List, ℕ, eqb, get_or};
ghost use Rattle.book.specs.Book.{mark_number, no_variant, nth_nonterminal};
ghost use Rattle.book.specs.Numbers.{binder_mark};
ghost use Rattle.book.specs.Index.{placed_in, book_at, is_sought, has_binder};

use crate::index::{NONTERMINALS, VARIANTS, count, first};
use crate::reading::Book;
use crate::records::Mark;

// The binder that is looked for. These functions take the bytes and the index, and no `Book`: they run while the index
// is written, and their contracts are about the two.
#[derive(Clone, Copy)]
pub enum Sought {
    Any,
    OfVariant(usize),
    OfStep(usize),
}

// The number of a variant's first step, whatever the bytes are.
#[tactic(auto, using(crate::proofs::BinderLaws::first_step_in, crate::proofs::BinderLaws::first_step_out))]
fn first_step(index: &[usize], j: usize) -> usize
    ensures { (book : List ℕ) → result ≡ (get_or (placed_in book index.now) j (0, no_variant)).1.first }
{
    if j < count(index, VARIANTS) {
        first(index, VARIANTS, j)
    } else {
        0
    }
}

// Whether nonterminal n is the binder that is looked for.
fn is_sought(book: &[u8], index: &[usize], sought: Sought, n: usize) -> bool
    ensures { result ≡ is_sought sought book.now index.now (nth_nonterminal (book_at book.now index.now) n) }
{
    let own = Book::new(book, index).nonterminal(n);
    own.mark == Mark::Binder
        && match sought {
            Sought::Any => true,
            Sought::OfVariant(j) => own.first == j,
            Sought::OfStep(k) => first_step(index, own.first) == k,
        }
}

// Whether there is the binder that is looked for.
pub fn has_binder(book: &[u8], index: &[usize], sought: Sought) -> bool
    ensures { result ≡ has_binder sought book.now index.now }
{
    (0..count(index, NONTERMINALS)).any(|n| is_sought(book, index, sought, n))
}
