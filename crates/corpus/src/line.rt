// Lines out of chunks of input. A line that the store has no room for is over every limit of an operation, so what is past its end is dropped, with the part of an
// escape before it; the line of a case is written on as it comes.
use crate::run::{NotUnderstood, Sheet, finish, is_case, write_line};
use corpus_text::bytes::Bytes;
use corpus_text::output::write_text;
use corpus_text::text::whole;
use std::io::{Stderr, Stdout};

// Which part of the line is not in its store.
#[derive(Clone, Copy)]
enum Missing {
    Nothing,
    // The end, which is dropped.
    End,
    // The beginning, which is written already.
    Beginning,
}

// The line so far, and the sheet in hand.
#[derive(Drop)]
pub struct Reader {
    line: Bytes<8192>,
    missing: Missing,
    sheet: Sheet,
}

impl Reader {
    pub fn new() -> Self {
        Reader {
            line: Bytes::new(),
            missing: Missing::Nothing,
            sheet: Bytes::new(),
        }
    }

    // One byte more, that is no newline.
    fn push(&mut self, out: Stdout, b: u8) {
        if self.line.push(b) {
            return;
        }
        let line = self.line.as_slice();
        if matches!(self.missing, Missing::Beginning) || is_case(line) {
            write_text(out, line);
            self.line.clear();
            self.line.push(b);
            self.missing = Missing::Beginning;
        } else {
            self.missing = Missing::End;
        }
    }

    // The line is over: it is what is left of a case's name, or asks for an outcome.
    fn end(&mut self, out: Stdout, err: Stderr) -> Result<(), NotUnderstood> {
        let line = self.line.as_slice();
        match self.missing {
            Missing::Nothing => finish(out, err, line, &mut self.sheet)?,
            Missing::End => finish(out, err, &line[..whole(line)], &mut self.sheet)?,
            Missing::Beginning => write_line(out, line),
        }
        self.line.clear();
        self.missing = Missing::Nothing;
        Ok(())
    }

    // A chunk of input, up to a line that is not understood.
    pub fn feed(&mut self, out: Stdout, err: Stderr, chunk: &[u8]) -> Result<(), NotUnderstood> {
        for &b in chunk {
            if b == b'\n' {
                self.end(out, err)?;
            } else {
                self.push(out, b);
            }
        }
        Ok(())
    }
}
