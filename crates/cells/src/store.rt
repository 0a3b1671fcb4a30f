// The cells of a run in a lent slice of numbers, with an index of buckets: the cells of one hash, linked from the
// newest on. No map of the library: the store is lent, by C too, and the reader allocates nothing.
ghost use Rattle.std.specs.Prelude.{◌≡◌, List, [], ℕ, ◌≤◌, ◌<◌, length, get_or, set, unwrap_or, IfSome};
ghost use Rattle.cells.specs.Store.{hashes, numbers_at, find_in, pushed, Makes, Cleared};

use crate::numbers::{CellNumbers, HASHES, hash, same_cell};

// "a 4,097th cell" is a limit
pub const MOST_CELLS: u32 = 4096;

// "cells hold three numbers": form, a and b
pub const CELL_SIZE: usize = 3;

pub const CELLS_SIZE: usize = CELL_SIZE * MOST_CELLS as usize;

// The link of cell n stands at LINKS + n; cells are numbered from 1.
const LINKS: usize = CELLS_SIZE - 1;

// behind the links of all cells
const HEADS: usize = 16384;

pub const STORE_SIZE: usize = HEADS + HASHES;

// A cell that was asked for: its number, and how many cells there are now.
#[derive(Clone, Copy, PartialEq, Eq, Debug)]
pub struct Made {
    pub cell: u32,
    pub count: u32,
}

// The number at i, and 0 past the end.
fn get(store: &[u32], i: usize) -> u32
    ensures { result ≡ get_or store.now i 0 }
{
    store.get(i).copied().unwrap_or(0)
}

// Writes a number; past the end it does nothing.
#[tactic(auto, using(std::proofs::lemmas::List::set_past))]
fn put(store: &mut [u32], i: usize, x: u32)
    ensures { store.new ≡ set store.old i x }
{
    // no `get_mut`: of its `None` no fact says that the numbers stay, so the contract isn't proved
    if i < store.len() {
        store[i] = x;
    }
}

// Cell n. Past the end its numbers are 0; printing has another, to which such a cell is absent.
fn cell_at(store: &[u32], n: u32) -> CellNumbers
    requires { 0 < n }
    ensures { result ≡ numbers_at store.now n }
{
    let at = n as usize * CELL_SIZE - CELL_SIZE;
    // Where all three are there, as in a run they are, one test tells.
    if at + 2 < store.len() {
        return CellNumbers {
            form: store[at],
            a: store[at + 1],
            b: store[at + 2],
        };
    }
    CellNumbers {
        form: get(store, at),
        a: get(store, at + 1),
        b: get(store, at + 2),
    }
}

// The cell that is equal to c in the bucket from `first` on. A bucket has at most as many cells as there are, and 0
// ends it.
fn find(text: &[u8], store: &[u32], c: CellNumbers, count: u32, first: u32) -> Option<u32>
    ensures value { unwrap_or result 0 ≡ find_in text.now store.now c count first }
    ensures cell { IfSome result (λ n. 0 < n) }
{
    let mut n = first;
    for _ in 0..count {
        if n == 0 {
            return None;
        }
        if same_cell(text, c, cell_at(store, n)) {
            return Some(n);
        }
        n = get(store, LINKS + n as usize);
    }
    None
}

// Cell n is c, the newest of its hash.
#[tactic(auto, unfolding(crate::specs::Store::pushed))]
fn push(store: &mut [u32], c: CellNumbers, n: u32, hash: usize)
    requires { (0 < n) × (hash < hashes) }
    ensures { store.new ≡ pushed store.old c n hash }
{
    let at = n as usize * CELL_SIZE - CELL_SIZE;
    let older = get(store, HEADS + hash);
    put(store, at, c.form);
    put(store, at + 1, c.a);
    put(store, at + 2, c.b);
    put(store, LINKS + n as usize, older);
    put(store, HEADS + hash, n);
}

// The equal cell, or one more; none where that would be one too many, limit 23.
pub fn make(text: &[u8], store: &mut [u32], count: u32, c: CellNumbers) -> Option<Made>
    ensures { Makes text.now store.old store.new count c result }
{
    let h = hash(text, c);
    let first = get(store, HEADS + h);
    if let Some(cell) = find(text, store, c, count, first) {
        return Some(Made { cell, count });
    }
    if count < MOST_CELLS {
        let more = count + 1;
        push(store, c, more, h);
        Some(Made {
            cell: more,
            count: more,
        })
    } else {
        None
    }
}

// No cells, whatever the store held. A store that is too short for them is left as it is.
pub fn clear(store: &mut [u32])
    ensures { Cleared store.old store.new }
{
    if store.len() < STORE_SIZE {
        return;
    }
    store[HEADS..STORE_SIZE].fill(0);
}
