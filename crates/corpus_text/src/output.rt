// Bytes and numbers to the output. If it takes no more, they are lost: there is nowhere else to report that.
use std::io::Stdout;

pub fn write_text(out: Stdout, text: &[u8]) {
    let _ = out.write_all(text);
}

pub fn write_decimal(out: Stdout, n: u64) {
    let _ = out.print(n);
}

// A word in 16 hexadecimal digits.
pub fn write_word(out: Stdout, word: u64) {
    let _ = print!(out; "{word:016x}");
}

// A byte in two hexadecimal digits.
pub fn write_hex(out: Stdout, byte: u8) {
    let _ = print!(out; "{byte:02x}");
}
