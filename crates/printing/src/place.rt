// The line and the column of a place.
ghost use Rattle.std.specs.Prelude.{◌≡◌, suc, ◌*◌, ◌≤◌, length, take};
ghost use Rattle.printing.specs.Printing.{line_feeds, column_after, column_from};

use characters::part;

// How many columns lie from one tab stop to the next.
const TAB_SIZE: usize = 8;

fn line_feeds(bytes: &[u8]) -> usize
    ensures is { result ≡ line_feeds bytes.now }
    ensures most { result ≤ length bytes.now }
{
    let mut found = 0;
    for byte in bytes {
        if *byte == b'\n' {
            found += 1;
        }
    }
    found
}

// The column behind a byte: a tab moves to the next of 9, 17, 25 and so on. A byte moves by at most 8 and a place has
// 32 bits, so no column comes near the limit of its type.
fn next_column(column: usize, byte: u8) -> usize
    requires { (1 ≤ column) × (column ≤ 8 * 4294967296) }
    ensures { result ≡ column_after column byte }
{
    match byte {
        b'\n' => 1,
        b'\t' => (column + TAB_SIZE - 1) / TAB_SIZE * TAB_SIZE + 1,
        _ => column + 1,
    }
}

pub fn line(text: &[u8], place: u32) -> usize
    ensures { result ≡ suc (line_feeds (take place text.now)) }
{
    line_feeds(part(text, 0, place as usize)) + 1
}

pub fn column(text: &[u8], place: u32) -> usize
    ensures { result ≡ column_from 1 (take place text.now) }
{
    let before = part(text, 0, place as usize);
    let mut column = 1;
    for byte in before {
        column = next_column(column, *byte);
    }
    column
}
