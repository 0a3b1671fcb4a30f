// Document 01's limits of a book's sections and fields.

// "Words, 0 to 64"
pub const MOST_WORDS: usize = 64;

// "Starting names, 0 to 64"
pub const MOST_NAMES: usize = 64;

// "Nonterminals, 1 to 32"
pub const MOST_NONTERMINALS: usize = 32;

// "Variants, the sum of those, at most 128"
pub const MOST_VARIANTS: usize = 128;

// A byte is no greater, so no section counts more steps, and no level is higher.
pub const LARGEST_BYTE: usize = 255;

// "reserved 0 or 1"
pub const RESERVED: usize = 1;

// "kind 0 to 7"
pub const LAST_KIND: usize = 7;

pub const KINDS: usize = LAST_KIND + 1;

// "length 1 to 15"
pub const LONGEST_SPELLING: usize = 15;

// "2 is `identifier_nonterminal`, with 0 variants"
pub const IDENTIFIER_MARK: usize = 2;

// Document 02 d, "the binder of `CoreBinder::parse` as mark 3".
pub const BINDER_MARK: usize = 3;

pub const LAST_MARK: usize = BINDER_MARK;

// "number of variants 0 to 16"
pub const VARIANTS_EACH: usize = 16;

// "Level 255 is Rust's default and needs Both"
pub const DEFAULT_LEVEL: usize = 255;

// The last associativity.
pub const BOTH: usize = 3;

// "flags 0 to 3 (1 committed, plus 2 passing)"
pub const COMMITTED_FLAGS: usize = 1;

pub const LAST_FLAGS: usize = 3;

// "steps 0 to 8"
pub const STEPS_EACH: usize = 8;

// Document 02 d, "a step of kind 14: body, opening, closing".
pub const BINDER_KIND: usize = 14;

// "Characters are 33 to 126"
pub const FIRST_CHARACTER: usize = 33;

pub const LAST_CHARACTER: usize = 126;
