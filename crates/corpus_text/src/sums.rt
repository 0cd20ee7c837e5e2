// What Book answers, as a text: how many words were written, and their sum.
use crate::outcome::{write_count, write_part, write_words};
use crate::output::{write_text, write_word};
use std::io::Stdout;

// The sum of the running sums, both modulo 2^64: it tells other words and another order apart.
fn sum(words: &[u64]) -> u64 {
    let mut running: u64 = 0;
    let mut total: u64 = 0;
    for &word in words {
        running = running.wrapping_add(word);
        total = total.wrapping_add(running);
    }
    total
}

fn write_sum(out: Stdout, words: &[u64]) {
    write_text(out, b" words sum ");
    write_word(out, sum(words));
    if words.len() <= 16 {
        write_words(out, words);
    }
}

// The book of the store's first n words.
pub fn write_book(out: Stdout, store: &[u64], n: usize) {
    write_count(out, b" ", n);
    write_part(out, store, n, write_sum);
}
