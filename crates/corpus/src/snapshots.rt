// The outcome of Snapshot: a byte of the row for each node.
use crate::call::Call;
use corpus_text::bytes::Bytes;
use corpus_text::number::at_most;
use corpus_text::outcome::{write_operation, write_refusal};
use corpus_text::rows::write_row;
use corpus_text::store::fill;
use corpus_text::text::unescape;

// The outcome for a text that is escaped, unless it is none. A longer one than the store is as wrong as one that just fills it.
pub fn snapshot(call: Call, escaped: &[u8], length: u64) -> Option<()> {
    let text: Bytes<1025> = unescape(escaped)?;
    let mut bytes = [0u8; 64];
    let row = &mut bytes[..at_most(length, 64)];
    fill(row);
    write_operation(call.out, call.line);
    match lockgraph::snapshot_within(call.limits, call.sheet, text.as_slice(), row) {
        Err(why) => write_refusal(call.out, why, row),
        Ok(nodes) => write_row(call.out, row, nodes),
    }
    Some(())
}
