// The operators with modes: which they are, and the set of modes in their braces. Assumes nothing.
#![tactic(auto)]

mod braced;
mod kinds;
mod sets;

pub use braced::{Modes, braces};
pub use kinds::{Binary, binary_kind, choose, modal_kind};
pub use sets::lower;
