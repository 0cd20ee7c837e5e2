// The parts that the outcome lines of several operations have in common.
use crate::output::{write_decimal, write_text, write_word};
use crate::store::{Pattern, kept};
use refusal::Refusal;
use std::io::Stdout;

// The operation as its line gives it, and a colon.
pub fn write_operation(out: Stdout, line: &[u8]) {
    write_text(out, line);
    write_text(out, b":");
}

pub fn write_refused(out: Stdout, why: Refusal) {
    let _ = print!(out; " refused {why}");
}

// Ends an outcome line, which says last whether a store was written where nothing is promised.
pub fn write_end(out: Stdout, kept: bool) {
    if !kept {
        write_text(out, b" disturbed");
    }
    write_text(out, b"\n");
}

// The refusal of an operation that was lent a store: none of it may be written.
pub fn write_refusal<T: Pattern>(out: Stdout, why: Refusal, store: &[T]) {
    write_refused(out, why);
    write_end(out, kept(store, 0));
}

// The first n elements of a store, as `write` gives them, and the line's end; a store that has not so many is disturbed.
pub fn write_part<T: Pattern, F: Fn(Stdout, &[T])>(out: Stdout, store: &[T], n: usize, write: F)
    requires { F.IsAlwaysCallable write }
{
    if n <= store.len() {
        write(out, &store[..n]);
        write_end(out, kept(store, n));
    } else {
        write_end(out, false);
    }
}

pub fn write_words(out: Stdout, words: &[u64]) {
    for &word in words {
        write_text(out, b" ");
        write_word(out, word);
    }
}

// A number with what it counts before it.
pub fn write_count(out: Stdout, name: &[u8], n: usize) {
    write_text(out, name);
    write_decimal(out, n as u64);
}
