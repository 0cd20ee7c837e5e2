// The public library for C and Rust: each operation with its refusal's number, or 0, as the result, and its numbers through a lent array, which keeps its contents with a
// refusal; each once with limits, the lean's and then the closure's, and once without, under document 01's. Assumes nothing.
#![tactic(auto)]

mod books;
mod cleans;
mod goals;
mod lists;
mod snapshots;
mod tables;
mod verdicts;

pub use books::{lockgraph_book, lockgraph_book_within};
pub use cleans::{lockgraph_clean, lockgraph_clean_within};
pub use goals::{lockgraph_goal, lockgraph_goal_within};
pub use lists::{lockgraph_list, lockgraph_list_within};
pub use snapshots::{lockgraph_snapshot, lockgraph_snapshot_within};
pub use tables::{lockgraph_table, lockgraph_table_within};
pub use verdicts::{lockgraph_verdict, lockgraph_verdict_within};
