// Worked cases of the lower layers, each compared with what document 01 makes of it. For each group it writes how many
// cases there are and how many differ; before that, the number of each that differs.
//
// Characters: classes, skipping, tokens, spellings. Books: those of data/books.bin, whose form, and how it was made, is
// told in tools/cases/layer_books.py: each refusal, and each field of an accepted book. Questions: words and names of a
// book.
#![tactic(auto)]

mod classes;
mod compare;
mod questions;
mod reading;
mod skipping;
mod spellings;
mod tally;
mod tokens;

use reading::read_full;
use std::fs::File;
use std::io;
use tally::Tally;

// The bytes of the longest file. No list has more, and what a file has beyond them is not read.
const FILE_ROOM: usize = 262144;

fn main(rt: HostRuntime) -> io::Result<()> {
    let mut characters = Tally::new(rt.stdout());
    classes::cases(&mut characters);
    skipping::cases(&mut characters);
    tokens::cases(&mut characters);
    spellings::cases(&mut characters);
    characters.write("characters")?;

    let mut books = Tally::new(rt.stdout());
    let mut space = [0u8; FILE_ROOM];
    let size = read_full(&mut File::open(&rt, "books.bin")?, &mut space)?;
    compare::cases(&mut books, &space[..size]);
    books.write("books")?;

    let mut questions = Tally::new(rt.stdout());
    questions::cases(&mut questions);
    questions.write("questions")
}
