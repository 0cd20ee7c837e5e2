// Which operator it is, and its kind of node. Assumes nothing.
ghost use Rattle.std.specs.Prelude.{◌≡◌};
ghost use Rattle.operators.specs.Operators.{modal_kind, binary_kind, choice_of};

use token::Modal;

// The kind of an operator of two letters.
pub fn modal_kind(m: Modal) -> u8
    ensures { result ≡ modal_kind m }
{
    match m {
        Modal::Ex => 4,
        Modal::Ax => 5,
        Modal::Ef => 6,
        Modal::Af => 7,
        Modal::Eg => 8,
        Modal::Ag => 9,
    }
}

// The operators of two operands.
#[derive(Clone, Copy)]
pub enum Binary {
    Eu,
    Au,
    Er,
    Ar,
}

pub fn binary_kind(b: Binary) -> u8
    ensures { result ≡ binary_kind b }
{
    match b {
        Binary::Eu => 13,
        Binary::Au => 14,
        Binary::Er => 15,
        Binary::Ar => 16,
    }
}

const E: u64 = b'e' as u64;

const A: u64 = b'a' as u64;

const U: u64 = b'u' as u64;

const R: u64 = b'r' as u64;

// The operator of a quantifier and U or R, each a capital by its lower-case letter.
#[tactic(auto, unfolding(crate::specs::Operators::choice_of))]
pub fn choose(q: u64, c: u64) -> Option<Binary>
    ensures { result ≡ choice_of q c }
{
    match (q, c) {
        (E, U) => Some(Binary::Eu),
        (E, R) => Some(Binary::Er),
        (A, U) => Some(Binary::Au),
        (A, R) => Some(Binary::Ar),
        _ => None,
    }
}
