// The lines of a corpus: cases, sheets, and calls, each with its outcome.
use crate::call::answer;
use corpus_text::bytes::Bytes;
use corpus_text::output::write_text;
use corpus_text::text::unescape;
use std::io::{Stderr, Stdout};

// A line was not understood, and standard error says which.
#[derive(Clone, Copy)]
pub struct NotUnderstood;

// The sheet in hand; one that just fills it is longer than a sheet may be.
pub type Sheet = Bytes<1025>;

pub fn is_case(line: &[u8]) -> bool {
    line.starts_with(b"case ")
}

pub fn write_line(out: Stdout, line: &[u8]) {
    write_text(out, line);
    write_text(out, b"\n");
}

// If standard error takes no more, the bytes are lost.
fn not_understood(err: Stderr, what: &[u8]) -> NotUnderstood {
    let _ = err.write_all(b"not understood: ");
    let _ = err.write_all(what);
    let _ = err.write_all(b"\n");
    NotUnderstood
}

// What a line that is over asks for.
pub fn finish(
    out: Stdout,
    err: Stderr,
    line: &[u8],
    sheet: &mut Sheet,
) -> Result<(), NotUnderstood> {
    match line {
        [] | [b'#', ..] => {}
        b"end" => write_line(out, line),
        b"sheet" => sheet.clear(),
        _ if is_case(line) => write_line(out, line),
        _ => match line.strip_prefix(b"sheet ") {
            Some(text) => *sheet = unescape(text).ok_or_else(|| not_understood(err, b"a sheet"))?,
            None => answer(out, err, line, sheet.as_slice()).ok_or_else(|| not_understood(
                err, line,
            ))?,
        },
    }
    Ok(())
}
