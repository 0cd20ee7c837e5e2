// What the operations of the public library answer where they are not refused, and what is read off an answer. What each operation promises is defined in specs/,
// and that this meets the workshop's demands is proved in proofs/. Assumes nothing.
#![tactic(auto)]

pub mod parts;

// Of a table: how many words hold the types, how many types there are at the start and at the end, and after how many rounds.
#[derive(Clone, Copy, Debug, PartialEq, Eq)]
pub struct Tabled {
    pub words: usize,
    pub start: usize,
    pub left: usize,
    pub rounds: usize,
}

// Of a book: how many namings there are, and how many words for each.
#[derive(Clone, Copy, Debug, PartialEq, Eq)]
pub struct Booked {
    pub namings: u64,
    pub words: usize,
}
