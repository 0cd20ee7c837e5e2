// What Clean answers, as a text: its length, and its bytes, escaped.
use crate::outcome::{write_count, write_part};
use crate::output::write_text;
use crate::text::write_escaped;
use std::io::Stdout;

fn write_cleaned(out: Stdout, text: &[u8]) {
    write_text(out, b" ");
    write_escaped(out, text);
}

// The store's first n bytes.
pub fn write_clean(out: Stdout, store: &[u8], n: usize) {
    write_count(out, b" ", n);
    write_part(out, store, n, write_cleaned);
}
