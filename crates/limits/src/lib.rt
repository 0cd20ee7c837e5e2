// Sheets under the limits that a caller gives: how many places the lean and how many members the closure may have. Assumes nothing.
#![tactic(auto)]

ghost use Rattle.std.specs.Prelude.{◌≡◌, ◌↔◌, [], ◌+◌};
ghost use Rattle.refusal.specs.Number.{number_if};
ghost use Rattle.sheet.specs.Sheet.{goal_under, goal_start};
ghost use Rattle.limits.specs.Limits.{usual, limits_wrong, refusal_under, ReadUnder};

use reader::Reading;
use refusal::Refusal;

// The most places of a lean, from 1 to 12, and the most members of a closure, from 16 to 128. Any other numbers are refused, with 19.
#[derive(Clone, Copy)]
pub struct Limits {
    pub lean: usize,
    pub closure: usize,
}

// Document 01's limits, for a caller who gives none.
pub fn usual_limits() -> Limits
    ensures { result ≡ usual }
{
    Limits {
        lean: 8,
        closure: 64,
    }
}

#[tactic(auto, unfolding(crate::specs::Limits::limits_wrong))]
fn wrong(l: Limits) -> bool
    ensures { result ≡ limits_wrong l }
{
    l.lean < 1 || 12 < l.lean || l.closure < 16 || 128 < l.closure
}

// Every sheet, under any limits.
pub fn read(l: Limits, s: &[u8]) -> Result<Reading, Refusal>
    ensures { ReadUnder l s.now result }
{
    if wrong(l) {
        return Err(Refusal::Limits);
    }
    reader::read_within(s, l.closure, l.lean)
}

// The sheet's refusal, none where it is accepted.
pub fn refusal_of(l: Limits, s: &[u8]) -> Option<Refusal>
    ensures { number_if result ≡ refusal_under l s.now }
{
    read(l, s).err()
}

// The goal's text: a part of the sheet itself, empty exactly with a refusal.
pub fn goal_text(l: Limits, s: &[u8]) -> &[u8]
    ensures result_value { result.now ≡ goal_under s.now (refusal_under l s.now) }
    ensures ref_ptr_value { (result.ref_ptr.0 ≡ s.entry.ref_ptr.0) × (result.ref_ptr.1 ≡ s.entry.ref_ptr.1 + goal_start s.now (refusal_under l s.now)) }
    ensures variant { (result.now ≡ []) ↔ (refusal_under l s.now ≡ 0 → ⊥) }
{
    let k = refusal_of(l, s).map_or(0, Refusal::number);
    sheet::goal_part(s, k)
}
