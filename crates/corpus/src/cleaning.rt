// The outcome of Clean: how many bytes the text has, and the text.
use crate::call::Call;
use corpus_text::cleaned::write_clean;
use corpus_text::number::at_most;
use corpus_text::outcome::{write_operation, write_refusal};
use corpus_text::store::fill;

pub fn clean(call: Call, length: u64) {
    let mut bytes = [0u8; 2048];
    let store = &mut bytes[..at_most(length, 2048)];
    fill(store);
    write_operation(call.out, call.line);
    match lockgraph::clean_within(call.limits, call.sheet, store) {
        Err(why) => write_refusal(call.out, why, store),
        Ok(long) => write_clean(call.out, store, long),
    }
}
