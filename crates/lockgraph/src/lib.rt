// The public library: every operation on a sheet's bytes, for any arguments, with its whole outcome; each once with limits, and once without, under document 01's. Assumes nothing.
#![tactic(auto)]

ghost use Rattle.std.specs.Prelude.{◌≡◌, ◌↔◌, [], ◌+◌};
ghost use Rattle.sheet.specs.Sheet.{goal_start, goal_under};
ghost use Rattle.refusal.specs.Number.{number_if};
ghost use Rattle.limits.specs.Limits.{refusal_under, usual};

mod books;
mod cleans;
mod lists;
mod snapshots;
mod tables;
mod verdicts;

pub use books::{book, book_within};
pub use cleans::{clean, clean_within};
pub use judge::Verdict;
pub use limits::{Limits, usual_limits};
pub use lists::{list, list_within};
pub use outcomes::parts::part;
pub use outcomes::{Booked, Tabled};
pub use refusal::Refusal;
pub use snapshots::{snapshot, snapshot_within};
pub use tables::{table, table_within};
pub use verdicts::{verdict, verdict_within};

// Why the sheet is refused, none where it is accepted: for the limits, 19, or 1 to 10.
pub fn refusal_within(l: Limits, sheet: &[u8]) -> Option<Refusal>
    ensures { number_if result ≡ refusal_under l sheet.now }
{
    limits::refusal_of(l, sheet)
}

// The same without limits.
pub fn refusal(sheet: &[u8]) -> Option<Refusal>
    ensures { number_if result ≡ refusal_under usual sheet.now }
{
    refusal_within(usual_limits(), sheet)
}

// The goal's text: a part of the sheet itself, empty exactly with a refusal, which is `refusal_within`.
pub fn goal_text_within(l: Limits, sheet: &[u8]) -> &[u8]
    ensures result_value { result.now ≡ goal_under sheet.now (refusal_under l sheet.now) }
    ensures ref_ptr_value { (result.ref_ptr.0 ≡ sheet.entry.ref_ptr.0) × (result.ref_ptr.1 ≡ sheet.entry.ref_ptr.1 + goal_start sheet.now (refusal_under l sheet.now)) }
    ensures variant { (result.now ≡ []) ↔ (refusal_under l sheet.now ≡ 0 → ⊥) }
{
    limits::goal_text(l, sheet)
}

// The same without limits.
pub fn goal_text(sheet: &[u8]) -> &[u8]
    ensures result_value { result.now ≡ goal_under sheet.now (refusal_under usual sheet.now) }
    ensures ref_ptr_value { (result.ref_ptr.0 ≡ sheet.entry.ref_ptr.0) × (result.ref_ptr.1 ≡ sheet.entry.ref_ptr.1 + goal_start sheet.now (refusal_under usual sheet.now)) }
    ensures variant { (result.now ≡ []) ↔ (refusal_under usual sheet.now ≡ 0 → ⊥) }
{
    goal_text_within(usual_limits(), sheet)
}
