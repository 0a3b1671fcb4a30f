// The lent lists: cleared, or filled with what the run made and found. They are no struct of both: each contract would
// have to say that the struct still holds the same two slices.
ghost use Rattle.std.specs.Prelude.{◌≡◌, [], ◌*◌, ◌≤◌, length, take};
ghost use Rattle.semantics.specs.Numbers.{cell_size, cells_size, parses_size};
ghost use Rattle.run.specs.Reading.{LongLists, CanFill, Writes, WritesParses};

use calls::{MOST_NESTING, Rows};
use cells::{CELL_SIZE, CELLS_SIZE};
use sets::{PARSE_SIZE, PARSES_SIZE, put_parse};

// The first `size` numbers of a lent list become zeros.
fn clear(lent: &mut [u32], size: usize)
    requires { size ≤ length lent.old }
    ensures { Writes lent.old lent.new size [] }
{
    lent[..size].fill(0);
}

// The first `size` numbers of a lent list become these, and zeros. Number by number: the library's copy would make the
// archive for C need `memmove`.
fn write(lent: &mut [u32], size: usize, numbers: &[u32])
    requires { (size ≤ length lent.old) × (length numbers.now ≤ size) }
    ensures { Writes lent.old lent.new size numbers.now }
{
    clear(lent, size);
    for i in 0..numbers.len() {
        lent[i] = numbers[i];
    }
}

// The first 256 numbers of a lent list become the parses that the outermost row found, and zeros. By number: the rows
// are asked for a parse by it, and the list is C's.
fn write_parses(parses: &mut [u32], rows: &Rows)
    requires { parses_size ≤ length parses.old }
    ensures { WritesParses parses.old parses.new rows.now }
{
    clear(parses, PARSES_SIZE);
    let count = rows.parse_count(MOST_NESTING);
    for i in 0..count {
        put_parse(parses, PARSE_SIZE * i, rows.nth_parse(MOST_NESTING, i));
    }
}

// 20 to 23, 41 and 30.
pub fn clear_lists(cells: &mut [u32], parses: &mut [u32])
    requires { LongLists cells.old parses.old }
    ensures { Writes cells.old cells.new cells_size [] × Writes parses.old parses.new parses_size [] }
{
    clear(cells, CELLS_SIZE);
    clear(parses, PARSES_SIZE);
}

// The cells of the store, and what the outermost row found.
pub fn fill_lists(cells: &mut [u32], parses: &mut [u32], store: &[u32], rows: &Rows, count: u32)
    requires { CanFill cells.old parses.old store.now count }
    ensures { Writes cells.old cells.new cells_size (take (cell_size * count) store.now)
        × WritesParses parses.old parses.new rows.now }
{
    write(cells, CELLS_SIZE, &store[..CELL_SIZE * count as usize]);
    write_parses(parses, rows);
}
