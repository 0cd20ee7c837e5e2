// Clean: the sheet written back in one way of typing, into a lent store. Assumes nothing.
ghost use Rattle.limits.specs.Limits.{usual};
ghost use Rattle.outcomes.specs.Outcomes.{CleanIs};

use limits::{Limits, usual_limits};
use refusal::Refusal;

// Lines 1 and 2 as they are, then each formula in canonical print behind `all ` or `goal `, at the beginning of a store: how many bytes that is.
pub fn clean_within(l: Limits, sheet: &[u8], store: &mut [u8]) -> Result<usize, Refusal>
    ensures { CleanIs l sheet.now store.old result store.new }
{
    let reading = limits::read(l, sheet)?;
    clean::write_clean(sheet, reading, store).ok_or(Refusal::Clean)
}

// The same without limits.
pub fn clean(sheet: &[u8], store: &mut [u8]) -> Result<usize, Refusal>
    ensures { CleanIs usual sheet.now store.old result store.new }
{
    clean_within(usual_limits(), sheet, store)
}
