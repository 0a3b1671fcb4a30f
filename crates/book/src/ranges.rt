// The numbers that a byte of a book may have.
ghost use Rattle.std.specs.Prelude.{◌≡◌, ℕ, ◌≤◌, eqb};
ghost use Rattle.characters.specs.Classes.{between};
ghost use Rattle.book.specs.Index.{below_range};

use crate::limits::{FIRST_CHARACTER, LAST_CHARACTER, LAST_KIND};

// From `low` to `high`. It is no RangeInclusive, which holds how far an iteration has come, and is not Copy.
#[derive(Clone, Copy, PartialEq, Eq, Debug)]
pub struct Range {
    pub low: usize,
    pub high: usize,
}

pub const CHARACTERS: Range = Range {
    low: FIRST_CHARACTER,
    high: LAST_CHARACTER,
};

pub const NAME_KINDS: Range = Range {
    low: 0,
    high: LAST_KIND,
};

// "unused bytes 0"
pub const UNUSED: Range = Range { low: 0, high: 0 };

// No number.
const NONE: Range = Range { low: 1, high: 0 };

impl Range {
    pub fn contains(self, n: usize) -> bool
        ensures { result ≡ between self.low self.high n }
    {
        self.low <= n && n <= self.high
    }
}

// The numbers below n.
pub fn below(n: usize) -> Range
    ensures { result ≡ below_range n }
{
    if n == 0 {
        NONE
    } else {
        Range {
            low: 0,
            high: n - 1,
        }
    }
}

// The total alone, if it is at most `most`.
pub fn exactly(total: usize, most: usize) -> Range
    ensures { ((n : ℕ) → n ≤ most → between result.low result.high n ≡ eqb n total) × (result.high ≤ most) }
{
    if total <= most {
        Range {
            low: total,
            high: total,
        }
    } else {
        NONE
    }
}
