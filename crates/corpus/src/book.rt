// The outcome of Book: how many words were written, and their sum.
ghost use Rattle.std.specs.Prelude.{◌≤◌};

use crate::call::Call;
use corpus_text::number::at_most;
use corpus_text::outcome::{write_operation, write_refusal};
use corpus_text::store::fill;
use corpus_text::sums::write_book;

// The words of a short store: most are, and clearing the longest would cost more than the call.
const SHORT: usize = 512;

// The words of the longest store, which has room for every book under the usual limits.
const MOST: usize = 65536;

// Book with a store of at most N words.
fn book_in<const N: usize>(call: Call, length: u64)
    requires { N ≤ MOST }
{
    let mut words = [0u64; N];
    let store = &mut words[..at_most(length, N)];
    fill(store);
    match lockgraph::book_within(call.limits, call.sheet, store) {
        Err(why) => write_refusal(call.out, why, store),
        Ok(b) => {
            write_book(
                call.out,
                store,
                (b.namings as usize).saturating_mul(b.words),
            );
        }
    }
}

// The outcome, unless the program has no store so long: a shorter one may have to be refused.
pub fn book(call: Call, length: u64) -> Option<()> {
    if (MOST as u64) < length {
        return None;
    }
    write_operation(call.out, call.line);
    if length <= SHORT as u64 {
        book_in::<SHORT>(call, length);
    } else {
        book_in::<MOST>(call, length);
    }
    Some(())
}
