// List: the surviving types under one naming, as numbers in a lent store, in document 02's order. Assumes nothing.
ghost use Rattle.limits.specs.Limits.{usual};
ghost use Rattle.outcomes.specs.Outcomes.{ListIs};

use fitted::tables::fitted_table;
use limits::{Limits, usual_limits};
use refusal::Refusal;

// The surviving types under a naming as numbers at the beginning of a store: the fewest true lean places first, among equals the smaller
// number. Gives how many they are.
pub fn list_within(
    l: Limits,
    sheet: &[u8],
    naming: u64,
    store: &mut [u16],
) -> Result<usize, Refusal>
    ensures { ListIs l sheet.now naming store.old result store.new }
{
    let u = frame::set_up(l, sheet)?;
    if u.namings <= naming {
        return Err(Refusal::Naming);
    }
    let words = u.words;
    let lean = u.width;
    let mut first = [0u64; 64];
    let mut second = [0u64; 64];
    let c = fitted_table(sheet, &u, naming, &mut first, &mut second);
    if store.len() < c.left {
        return Err(Refusal::Store);
    }
    Ok(listing::list_types(&first, words, lean, store))
}

// The same without limits.
pub fn list(sheet: &[u8], naming: u64, store: &mut [u16]) -> Result<usize, Refusal>
    ensures { ListIs usual sheet.now naming store.old result store.new }
{
    list_within(usual_limits(), sheet, naming, store)
}
