// Why a call is refused. Each refusal has the documents' number, which is what the program prints and what C is told. Assumes nothing.
#![tactic(auto)]

ghost use Rattle.std.specs.Prelude.{◌≡◌};
ghost use Rattle.refusal.specs.Number.{number_of};

use std::fmt;

// 1 to 10 are the sheet's, in their order; 11 and 12 the caller's naming and store; 13 to 17 the snapshot's and its row; 18 is that the clean text does not fit; 19 that the limits are
// out of their range.
#[derive(Clone, Copy, Debug, PartialEq, Eq)]
pub enum Refusal {
    Length,
    Byte,
    Layout,
    Names,
    Kinds,
    Grammar,
    Symbol,
    Braces,
    Closure,
    Lean,
    Naming,
    Store,
    Snapshot,
    Entry,
    Twice,
    Row,
    Held,
    Clean,
    Limits,
}

impl Refusal {
    // The documents' number.
    pub fn number(self) -> u8
        ensures { result ≡ number_of self }
    {
        match self {
            Refusal::Length => 1,
            Refusal::Byte => 2,
            Refusal::Layout => 3,
            Refusal::Names => 4,
            Refusal::Kinds => 5,
            Refusal::Grammar => 6,
            Refusal::Symbol => 7,
            Refusal::Braces => 8,
            Refusal::Closure => 9,
            Refusal::Lean => 10,
            Refusal::Naming => 11,
            Refusal::Store => 12,
            Refusal::Snapshot => 13,
            Refusal::Entry => 14,
            Refusal::Twice => 15,
            Refusal::Row => 16,
            Refusal::Held => 17,
            Refusal::Clean => 18,
            Refusal::Limits => 19,
        }
    }
}

// The number, as the program prints it.
impl fmt::Display for Refusal {
    fn fmt<W: fmt::Write>(&self, f: &mut fmt::Formatter<W>) -> fmt::Result {
        write!(f, "{}", self.number())
    }
}
