// Counts cases, and writes those that differ. `layer_cases` counts its own, which have no differences to write: a
// library for both would be no more than these two counters and a loop that reads.
use crate::difference::Difference;
use std::io;
use std::io::Stdout;

// No list has more; so the counts fit.
pub const MOST_CASES: u32 = 1000000;

#[derive(Clone, Copy)]
pub struct Tally {
    cases: u32,
    differ: u32,
    // What a case is called.
    name: &'static str,
    // Where the cases that differ are written.
    out: Stdout,
}

fn one_more(n: u32) -> u32 {
    n.saturating_add(1).min(MOST_CASES)
}

impl Tally {
    pub fn new(out: Stdout, name: &'static str) -> Tally {
        Tally {
            cases: 0,
            differ: 0,
            name,
            out,
        }
    }

    pub fn case(&mut self, difference: Option<Difference>) -> io::Result<()> {
        self.cases = one_more(self.cases);
        let Some(difference) = difference else {
            return Ok(());
        };
        self.differ = one_more(self.differ);
        println!(self.out; "{} {}: {difference}", self.name, self.cases)
    }

    pub fn write(&self, names: &str) -> io::Result<()> {
        println!(self.out; "{} {names}, {} differ", self.cases, self.differ)
    }
}
