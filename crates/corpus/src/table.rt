// The outcome of Table: the part handed back, and the counts of surviving types.
use crate::call::Call;
use corpus_text::number::at_most;
use corpus_text::outcome::{write_count, write_end, write_operation, write_refused, write_words};
use corpus_text::output::write_text;
use corpus_text::store::{fill, kept, same_words};
use lockgraph::{Refusal, Tabled};
use std::io::Stdout;

// The part handed back is of the first store. Both hold the same words, so the first one's word 0 is complemented for the while: only its part shows that.
fn is_first(first: &mut [u64], second: &[u64], answer: Result<Tabled, Refusal>) -> bool {
    let Some(&word) = first.first() else {
        return false;
    };
    first[0] = !word;
    let seen = lockgraph::part(first, second, answer).first() == Some(&!word);
    first[0] = word;
    seen
}

// The part handed back has the words promised, both stores have the same ones, and nothing else is written.
fn as_promised(
    first: &[u64],
    second: &[u64],
    answer: Result<Tabled, Refusal>,
    words: usize,
) -> bool {
    lockgraph::part(first, second, answer).len() == words
        && same_words(first, second, words)
        && kept(first, words)
        && kept(second, words)
}

// Which store the part handed back is of, and its words.
fn write_part(out: Stdout, first: &mut [u64], second: &[u64], answer: Result<Tabled, Refusal>) {
    if is_first(first, second, answer) {
        write_text(out, b" first");
    } else {
        write_text(out, b" second");
    }
    write_words(out, lockgraph::part(first, second, answer));
}

// What the answer says, and whether the stores are as it promises.
fn write_answer(out: Stdout, first: &mut [u64], second: &[u64], answer: Result<Tabled, Refusal>) {
    match answer {
        Err(why) => {
            write_refused(out, why);
            write_end(out, as_promised(first, second, answer, 0));
        }
        Ok(t) => {
            write_part(out, first, second, answer);
            write_count(out, b" start ", t.start);
            write_count(out, b" left ", t.left);
            write_count(out, b" rounds ", t.rounds);
            write_end(out, as_promised(first, second, answer, t.words));
        }
    }
}

pub fn table(call: Call, naming: u64, one: u64, other: u64) {
    let mut words = [0u64; 128];
    let mut others = [0u64; 128];
    let first = &mut words[..at_most(one, 128)];
    let second = &mut others[..at_most(other, 128)];
    fill(first);
    fill(second);
    write_operation(call.out, call.line);
    let answer = lockgraph::table_within(call.limits, call.sheet, naming, first, second);
    write_answer(call.out, first, second, answer);
}
