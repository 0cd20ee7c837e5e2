// How far a long run is: on standard error, where that is a terminal, between the pages. It is for people who wait; the output is the same without it.
use std::io::{IsTerminal, Stderr};

// Takes the number away that is shown, before more lines come: they may go to the same terminal. Before the first page there is none.
pub fn hide(stderr: Stderr, done: u64) {
    if done == 0 {
        return;
    }
    if stderr.is_terminal() {
        let _ = stderr.write_all(&[27, b'[', b'K']);
    }
}

// Shows how many of all namings are done, and goes back to the line's beginning.
pub fn show(stderr: Stderr, done: u64, all: u64) {
    if stderr.is_terminal() {
        let _ = print!(stderr; "{done} of {all} namings done\r");
    }
}
