// Counts cases, and writes the number of each that differs.
use std::io;
use std::io::Stdout;

#[derive(Clone, Copy)]
pub struct Tally {
    cases: u32,
    differ: u32,
    // Where the cases that differ are written.
    out: Stdout,
}

impl Tally {
    pub fn new(out: Stdout) -> Tally {
        Tally {
            cases: 0,
            differ: 0,
            out,
        }
    }

    pub fn case(&mut self, same: bool) {
        self.cases = self.cases.saturating_add(1);
        if !same {
            self.differ = self.differ.saturating_add(1);
            // it counts as differing whether or not its number can be written
            let _ = println!(self.out; "differs: case {}", self.cases);
        }
    }

    pub fn write(&self, what: &str) -> io::Result<()> {
        println!(self.out; "{} {what}, {} differ", self.cases, self.differ)
    }
}
