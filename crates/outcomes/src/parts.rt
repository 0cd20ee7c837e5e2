// The part of the stores that Table hands back, from its answer. Assumes nothing.
ghost use Rattle.std.specs.Prelude.{◌≡◌, take};
ghost use Rattle.outcomes.specs.Outcomes.{part_of, place_of};

use crate::Tabled;
use refusal::Refusal;

// The first w words of a store, or all of a shorter one.
fn front<'a>(store: &'a [u64], w: usize) -> &'a [u64]
    ensures { (result.now ≡ take w store.now) × (result.ref_ptr ≡ store.entry.ref_ptr) }
{
    if w < store.len() {
        return &store[..w];
    }
    store
}

// The part that Table hands back: of the store that was written last; empty with a refusal. It takes the stores as Table left them, and its answer.
pub fn part<'a>(first: &'a [u64], second: &'a [u64], answer: Result<Tabled, Refusal>) -> &'a [u64]
    ensures result_value { result.now ≡ part_of answer first.now second.now }
    ensures ref_ptr_value { result.ref_ptr ≡ place_of answer first.entry.ref_ptr second.entry.ref_ptr }
{
    match answer {
        Err(_) => front(first, 0),
        Ok(t) => {
            if t.rounds % 2 == 0 {
                front(second, t.words)
            } else {
                front(first, t.words)
            }
        }
    }
}
