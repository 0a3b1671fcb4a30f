// The refusals of the call itself, with the limits that they guard, by document 01's table in "The answer". The book's
// refusals, 3 to 8, stand in the crate book, the run's limits, 20 to 23 and 41, in transitions. They are plain numbers:
// an answer's `refusal` is the number that the documents and the C interface have, 0 if there is none.

// "cells under 12,288 numbers or parses under 256"; also too little working memory
pub const SHORT_LISTS: u32 = 1;

// "allowance 0 or above 1,000,000"
pub const BAD_ALLOWANCE: u32 = 2;

pub const MOST_UNITS: u32 = 1000000;

// "nonterminal not in book"
pub const UNKNOWN_START: u32 = 9;

// "above 4,096 bytes"
pub const LONG_TEXT: u32 = 10;

pub const LONGEST_TEXT: u32 = 4096;

// "byte 128 or more"
pub const HIGH_BYTE: u32 = 11;

pub const FIRST_HIGH_BYTE: u8 = 128;

// "no parse; kind and argument filled"
pub const NO_PARSE: u32 = 30;

// "parses, none whole"
pub const NONE_WHOLE: u32 = 31;

// "different whole values"
pub const DIFFERENT_VALUES: u32 = 32;
