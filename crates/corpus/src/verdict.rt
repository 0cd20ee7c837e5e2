// The outcomes of the operations that take a sheet alone: Verdict, the goal's text, and what the program prints.
use crate::call::Call;
use corpus_text::outcome::{write_operation, write_refused};
use corpus_text::output::{write_decimal, write_text};
use corpus_text::text::write_escaped;
use lockgraph::Verdict;
use std::io::Stderr;

pub fn verdict(call: Call) {
    let out = call.out;
    write_operation(out, call.line);
    match lockgraph::verdict_within(call.limits, call.sheet) {
        Err(why) => write_refused(out, why),
        Ok(Verdict::Open { naming, least }) => {
            write_text(out, b" open ");
            write_decimal(out, naming);
            write_text(out, b" ");
            write_decimal(out, least as u64);
        }
        Ok(Verdict::Unsatisfiable) => write_text(out, b" unsatisfiable - -"),
    }
    write_text(out, b"\n");
}

pub fn goal(call: Call) {
    let out = call.out;
    write_operation(out, call.line);
    match lockgraph::refusal_within(call.limits, call.sheet) {
        None => {
            write_text(out, b" ");
            write_escaped(out, lockgraph::goal_text_within(call.limits, call.sheet));
        }
        Some(why) => write_refused(out, why),
    }
    write_text(out, b"\n");
}

// Only the ends of the program's lines have to be escaped: all other bytes that it prints stand for themselves.
pub fn program(call: Call, err: Stderr) {
    let out = call.out;
    write_operation(out, call.line);
    write_text(out, b" ");
    report::report(out, err, call.limits, call.sheet, b"\\n");
    write_text(out, b"\n");
}
