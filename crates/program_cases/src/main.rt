// The parts of the program read_rule on worked cases. Each writes a label and the program's line; the file `stdout` has
// what documents 01 and 02 make of them. The books and the long texts are files of data/, written by tools/lists.py.
#![tactic(auto)]

mod cases;

fn main(rt: HostRuntime) {
    cases::all(&rt);
}
