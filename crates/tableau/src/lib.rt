// The elimination over all types at once, by 64-bit words. A set of types is w words: type t is bit t mod 64 of word t div 64.
// Throughout, ms is the table of closure members, ln the lean by its members' places in ms, tw the truth words (block i: the types in
// which member i is true), cw the condition words (which types demand and refuse what links ask for) and ns the needs (what rounds ask
// for). copy, todo, v and rest are stores to work in: what they hold before a round has no say. Assumes nothing.
#![tactic(auto)]

pub mod eliminate;
mod search;
pub mod table;
pub mod words;
