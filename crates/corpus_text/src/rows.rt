// What Snapshot answers, as a text: a byte of the row for each node.
use crate::outcome::write_part;
use crate::output::{write_decimal, write_text};
use std::io::Stdout;

fn write_bytes(out: Stdout, row: &[u8]) {
    for &b in row {
        write_text(out, b" ");
        write_decimal(out, u64::from(b));
    }
}

// The row's first n bytes.
pub fn write_row(out: Stdout, row: &[u8], n: usize) {
    write_part(out, row, n, write_bytes);
}
