// The work of the operations on a sheet that is not refused: what depends on the sheet alone is computed once, in stores that have
// the sheet's size: one of three. The functions ask for the set-up of such a sheet, and for room. Assumes nothing.
#![tactic(auto)]

pub mod books;
pub mod tables;
pub mod verdicts;
