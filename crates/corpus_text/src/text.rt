// Escaped text: `\n` is a newline, `\\` a backslash, `\xHH` any byte; all other bytes stand for themselves.
ghost use Rattle.std.specs.Prelude.{◌≤◌, ◌<◌, length, IfSome};

use crate::bytes::Bytes;
use crate::output::{write_hex, write_text};
use std::io::Stdout;

// A lower-case hexadecimal digit's value.
fn digit(b: u8) -> Option<u8>
    ensures { IfSome result (λ v. v < 16) }
{
    match b {
        b'0'..=b'9' => Some(b - b'0'),
        b'a'..=b'f' => Some(b - b'a' + 10),
        _ => None,
    }
}

// The byte that a text begins with, and the text behind it; none where the text is empty, or begins with a wrong escape.
fn next_byte(text: &[u8]) -> Option<(u8, &[u8])>
    ensures { IfSome result (λ p. length p.1.now < length text.now) }
{
    match text {
        [b'\\', b'n', rest @ ..] => Some((b'\n', rest)),
        [b'\\', b'\\', rest @ ..] => Some((b'\\', rest)),
        [b'\\', b'x', high, low, rest @ ..] => Some((digit(*high)? * 16 + digit(*low)?, rest)),
        [] | [b'\\', ..] => None,
        [b, rest @ ..] => Some((*b, rest)),
    }
}

// The bytes that a text stands for, as far as there is room for them; none where the text is wrong.
pub fn unescape<const N: usize>(text: &[u8]) -> Option<Bytes<N>> {
    let mut bytes = Bytes::new();
    let mut rest = text;
    while !rest.is_empty() {
        let (b, behind) = next_byte(rest)?;
        bytes.push(b);
        rest = behind;
    }
    Some(bytes)
}

// Where a text that was cut ends, without an escape that it may have only a part of.
pub fn whole(text: &[u8]) -> usize
    ensures { result ≤ length text.now }
{
    let mut rest = text;
    while let Some((_, behind)) = next_byte(rest) {
        rest = behind;
    }
    if rest.len() < 4 {
        text.len() - rest.len()
    } else {
        text.len()
    }
}

fn write_byte(out: Stdout, b: u8) {
    match b {
        b'\n' => write_text(out, b"\\n"),
        b'\\' => write_text(out, b"\\\\"),
        b' '..=b'~' => write_text(out, &[b]),
        _ => {
            write_text(out, b"\\x");
            write_hex(out, b);
        }
    }
}

// Writes a text escaped.
pub fn write_escaped(out: Stdout, text: &[u8]) {
    for &b in text {
        write_byte(out, b);
    }
}
