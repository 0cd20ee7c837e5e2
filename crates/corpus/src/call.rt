// The calls of a corpus: which operation a line asks for, under which limits, and its outcome.
use crate::book::book;
use crate::cleaning::clean;
use crate::list::list;
use crate::snapshots::snapshot;
use crate::table::table;
use crate::verdict::{goal, program, verdict};
use corpus_text::number::{has_slash, number_at, numbers_at, pair_at};
use lockgraph::{Limits, usual_limits};
use std::io::{Stderr, Stdout};

// What every operation is given: where its outcome goes, the limits, the line as it is written, and the sheet in hand.
#[derive(Clone, Copy)]
pub struct Call<'a> {
    pub out: Stdout,
    pub limits: Limits,
    pub line: &'a [u8],
    pub sheet: &'a [u8],
}

#[derive(Clone, Copy)]
enum Operation {
    Verdict,
    Goal,
    Program,
    Facts,
    Table,
    Book,
    Clean,
    List,
    Snapshot,
}

fn operation_of(word: &[u8]) -> Option<Operation> {
    match word {
        b"verdict" => Some(Operation::Verdict),
        b"goal" => Some(Operation::Goal),
        b"program" => Some(Operation::Program),
        b"facts" => Some(Operation::Facts),
        b"table" => Some(Operation::Table),
        b"book" => Some(Operation::Book),
        b"clean" => Some(Operation::Clean),
        b"list" => Some(Operation::List),
        b"snapshot" => Some(Operation::Snapshot),
        _ => None,
    }
}

// The limits of a call, and where its own words begin: past the line's end where it has none.
#[derive(Clone, Copy)]
struct Given {
    limits: Limits,
    next: usize,
}

// The limits at a place of the line, the usual ones where none stand there.
fn limits_at(line: &[u8], at: usize) -> Option<Given> {
    if !has_slash(line, at) {
        return Some(Given {
            limits: usual_limits(),
            next: at,
        });
    }
    let pair = pair_at(line, at)?;
    Some(Given {
        limits: Limits {
            lean: pair.first as usize,
            closure: pair.second as usize,
        },
        next: pair.next,
    })
}

// The call is written up to its number's end; what stands behind the space there is the text.
fn snapshot_at(call: Call, at: usize) -> Option<()> {
    let line = call.line;
    let length = number_at(line, at)?;
    let written = Call {
        line: &line[..length.next - 1],
        ..call
    };
    let text = line.get(length.next..).unwrap_or(b"");
    snapshot(written, text, length.value)
}

// The outcome of an operation whose own words begin at a place of the line.
fn outcome(operation: Operation, call: Call, err: Stderr, at: usize) -> Option<()> {
    match operation {
        Operation::Verdict => {
            let [] = numbers_at::<0>(call.line, at)?;
            verdict(call);
        }
        Operation::Goal => {
            let [] = numbers_at::<0>(call.line, at)?;
            goal(call);
        }
        Operation::Program => {
            let [] = numbers_at::<0>(call.line, at)?;
            program(call, err);
        }
        // This program passes over the facts.
        Operation::Facts => {
            let [] = numbers_at::<0>(call.line, at)?;
        }
        Operation::Table => {
            let [naming, first, second] = numbers_at::<3>(call.line, at)?;
            table(call, naming, first, second);
        }
        Operation::Book => {
            let [length] = numbers_at::<1>(call.line, at)?;
            book(call, length)?;
        }
        Operation::Clean => {
            let [length] = numbers_at::<1>(call.line, at)?;
            clean(call, length);
        }
        Operation::List => {
            let [naming, length] = numbers_at::<2>(call.line, at)?;
            list(call, naming, length);
        }
        Operation::Snapshot => snapshot_at(call, at)?,
    }
    Some(())
}

// The outcome of an operation on the sheet, unless the line is not understood.
pub fn answer(out: Stdout, err: Stderr, line: &[u8], sheet: &[u8]) -> Option<()> {
    let end = layout::end_of(b' ', line, 0);
    let operation = operation_of(&line[..end])?;
    let given = limits_at(line, end + 1)?;
    let call = Call {
        out,
        limits: given.limits,
        line,
        sheet,
    };
    outcome(operation, call, err, given.next)
}
