// What a corpus and its outcomes are written in: escaped texts, decimal numbers, stores filled with a pattern, the parts that outcome lines
// have in common, and what List, Book, Clean and Snapshot answer.
#![tactic(auto)]

pub mod bytes;
pub mod cleaned;
pub mod number;
pub mod outcome;
pub mod output;
pub mod rows;
pub mod store;
pub mod sums;
pub mod text;
pub mod types;
