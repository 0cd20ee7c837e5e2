// Reads a corpus of cases on standard input, of any length, a line at a time, and writes the outcome of each line, as the second checker's `corpus` does
// (second_checker/README.md has the format), but of `facts`, which it passes over. A line that is not understood, or asks for a book of more words than the
// program has, ends the run, with a word on standard error.
#![tactic(auto)]

mod book;
mod call;
mod cleaning;
mod line;
mod list;
mod run;
mod snapshots;
mod table;
mod verdict;

use line::Reader;
use std::io::Read;

// The input's end is not promised, so the turns are counted, up to a number that no run uses up.
fn main(rt: HostRuntime) {
    let mut input = rt.stdin();
    let mut chunk = [0u8; 65536];
    let mut reader = Reader::new();
    for _ in 0..u64::MAX {
        let Ok(n @ 1..) = input.read(&mut chunk) else {
            return;
        };
        if reader.feed(rt.stdout(), rt.stderr(), &chunk[..n]).is_err() {
            return;
        }
    }
}
