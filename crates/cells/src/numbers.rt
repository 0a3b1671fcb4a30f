// The three numbers of a cell by its form, whether two cells are equal, and the hash of a cell.
#![tactic(auto, unfolding(semantics::specs::Cells::numbers_of))]

ghost use Rattle.std.specs.Prelude.{◌≡◌, ◌<◌, ◌/◌, ◌%◌};
ghost use Rattle.semantics.specs.Numbers.{half};
ghost use Rattle.semantics.specs.Cells.{Cell, numbers_of};
ghost use Rattle.cells.specs.Store.{hashes, listed, same_in, mixed, hash_from, hash_of};

use characters::{part, same_spelling};

#[derive(Clone, Copy, PartialEq, Eq, Debug)]
pub struct CellNumbers {
    pub form: u32,
    pub a: u32,
    pub b: u32,
}

// A declared variable's binder, by its depth outwards, and the variable's index within that binder. They are "separate
// counts" (document 02 d), so each has a type of its own, and neither can be given for the other.
#[derive(Clone, Copy, PartialEq, Eq, Debug)]
pub struct DebruijnIndex(pub u32);

#[derive(Clone, Copy, PartialEq, Eq, Debug)]
pub struct VarIndex(pub u32);

// ---- The forms. Numbers and no enum: cells that are lent back by C have any number for a form.
// "1 empty chain (made as a variant begins); 2 chain, item; 3 variant .., chain; 4 name place, length ..; 5 number
// high, low half; 6 name number, kind; 7 absent; 8 list, chain"; document 02 d: "cell 9", a declared variable
pub const EMPTY_FORM: u32 = 1;

pub const CHAIN_FORM: u32 = 2;

pub const VARIANT_FORM: u32 = 3;

pub const NAME_FORM: u32 = 4;

pub const NUMBER_FORM: u32 = 5;

pub const VARIABLE_FORM: u32 = 6;

pub const ABSENT_FORM: u32 = 7;

pub const LIST_FORM: u32 = 8;

pub const DECLARED_FORM: u32 = 9;

// "5 number high, low half", of 64 bits
pub const HALF: u64 = 4294967296;

// how many hashes there are, and so buckets of cells with one hash
pub const HASHES: usize = 1024;

// by which a hash is multiplied before the next number joins it
const MULTIPLIER: usize = 31;

pub fn empty() -> CellNumbers
    ensures { listed result ≡ numbers_of Cell.empty }
{
    CellNumbers {
        form: EMPTY_FORM,
        a: 0,
        b: 0,
    }
}

pub fn chain(items: u32, item: u32) -> CellNumbers
    ensures { listed result ≡ numbers_of (Cell.chain items item) }
{
    CellNumbers {
        form: CHAIN_FORM,
        a: items,
        b: item,
    }
}

pub fn variant(variant: u32, items: u32) -> CellNumbers
    ensures { listed result ≡ numbers_of (Cell.variant variant items) }
{
    CellNumbers {
        form: VARIANT_FORM,
        a: variant,
        b: items,
    }
}

pub fn name(place: u32, size: u32) -> CellNumbers
    ensures { listed result ≡ numbers_of (Cell.name place size) }
{
    CellNumbers {
        form: NAME_FORM,
        a: place,
        b: size,
    }
}

pub fn number(value: u64) -> CellNumbers
    ensures { listed result ≡ numbers_of (Cell.number (value / half) (value % half)) }
{
    CellNumbers {
        form: NUMBER_FORM,
        a: (value / HALF) as u32,
        b: (value % HALF) as u32,
    }
}

pub fn variable(number: u32, kind: u32) -> CellNumbers
    ensures { listed result ≡ numbers_of (Cell.variable number kind) }
{
    CellNumbers {
        form: VARIABLE_FORM,
        a: number,
        b: kind,
    }
}

pub fn absent() -> CellNumbers
    ensures { listed result ≡ numbers_of Cell.absent }
{
    CellNumbers {
        form: ABSENT_FORM,
        a: 0,
        b: 0,
    }
}

pub fn list(items: u32) -> CellNumbers
    ensures { listed result ≡ numbers_of (Cell.list items) }
{
    CellNumbers {
        form: LIST_FORM,
        a: items,
        b: 0,
    }
}

pub fn declared(depth: DebruijnIndex, index: VarIndex) -> CellNumbers
    ensures { listed result ≡ numbers_of (Cell.declared depth.0 index.0) }
{
    CellNumbers {
        form: DECLARED_FORM,
        a: depth.0,
        b: index.0,
    }
}

// Names are equal by spelling, other cells by their numbers.
#[tactic(auto, using(crate::specs::NumbersLaws::same_names, crate::specs::NumbersLaws::same_other))]
pub fn same_cell(text: &[u8], c: CellNumbers, d: CellNumbers) -> bool
    ensures { result ≡ same_in text.now c d }
{
    if c.form == NAME_FORM && d.form == NAME_FORM {
        same_spelling(
            text,
            c.a as usize,
            c.b as usize,
            text,
            d.a as usize,
            d.b as usize,
        )
    } else {
        c == d
    }
}

// One number more in a hash.
fn mix(hash: usize, x: usize) -> usize
    requires { (hash < hashes) × (x < half) }
    ensures { (result ≡ mixed hash x) × (result < hashes) }
{
    (hash * MULTIPLIER + x) % HASHES
}

#[tactic(auto, using(crate::specs::NumbersLaws::hash_on, crate::specs::NumbersLaws::hash_end))]
fn mix_bytes(first: usize, bytes: &[u8]) -> usize
    requires { first < hashes }
    ensures { (result ≡ hash_from first bytes.now) × (result < hashes) }
{
    let mut hash = first;
    for byte in bytes {
        hash = mix(hash, *byte as usize);
    }
    hash
}

// A name's hash is one of its spelling, not of its place.
#[tactic(auto, using(crate::specs::NumbersLaws::hash_name, crate::specs::NumbersLaws::hash_other))]
pub fn hash(text: &[u8], cell: CellNumbers) -> usize
    ensures { (result ≡ hash_of text.now cell) × (result < hashes) }
{
    if cell.form == NAME_FORM {
        return mix_bytes(
            NAME_FORM as usize,
            part(text, cell.a as usize, cell.b as usize),
        );
    }
    mix(
        mix(mix(0, cell.form as usize), cell.a as usize),
        cell.b as usize,
    )
}
