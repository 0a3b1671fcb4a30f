// Replays known answers: calls with their whole answers by documents 01 and 02 (data/vectors.bin), and books and texts
// with what the Rust answered (data/rust.bin). It writes each case that differs, with the first number that does, and
// then how many cases there are and how many differ.
//
// Of a vector everything is compared: the seven numbers of the answer; every number of both lists, also those beyond
// what a call writes; the line, in exactly enough room, and that one byte too few leaves the room untouched. Of an
// answer of the Rust what both sides have: refusal, number of parses, the place of an error, each parse's rest, level
// and associativity, and the line of a value. record.rt, vector.rt and rust.rt tell the form of the lists.
//
// What is proved of this program is that it is safe and ends, whatever the lists hold; no contract can say what a file
// holds. It calls `read` of `run` and `print` of `printing`, and relies on `fs` and `io` of std.
#![tactic(auto)]

mod difference;
mod line;
mod reader;
mod reading;
mod record;
mod replay;
mod rust;
mod tally;
mod vector;

use replay::replay;
use rust::RustAnswer;
use std::fs::File;
use std::io;
use vector::Vector;

fn main(rt: HostRuntime) -> io::Result<()> {
    replay::<Vector>(rt.stdout(), &mut File::open(&rt, "vectors.bin")?)?;
    replay::<RustAnswer>(rt.stdout(), &mut File::open(&rt, "rust.bin")?)
}
