// Sets of modes as bits of a number, and the refusals that braces give. Assumes nothing.
ghost use Rattle.std.specs.Prelude.{◌≡◌, ◌^◌, ◌≤◌, ◌<◌, min};
ghost use Rattle.operators.specs.Modes.{marked_of, with_mode};

// A set of modes, and the refusal that its braces give: 9 for none, 8 for a mode twice, 7 for a symbol that is no field.
#[derive(Clone, Copy)]
pub struct Marked {
    pub mask: u32,
    pub low: u8,
}

// The smaller of two refusals.
pub fn lower(a: u8, b: u8) -> u8
    ensures { result ≡ min a b }
{
    a.min(b)
}

pub fn bit(m: u8) -> u32
    requires { m < 16 }
    ensures { result ≡ 2 ^ m }
{
    1 << m
}

// The set with a mode more, or the refusal 8 where it has the mode already.
pub fn with_bit(mask: u32, m: u8) -> Marked
    requires { (mask < 65536) × (m < 16) }
    ensures { (result ≡ marked_of mask m) × (result.mask < 65536) }
{
    let b = bit(m);
    if mask & b != 0 {
        Marked { mask, low: 8 }
    } else {
        Marked {
            mask: mask | b,
            low: 9,
        }
    }
}

// The set with the mode of a symbol's entry: `back` is 0 for forward and 8 for backward.
#[tactic(auto, unfolding(crate::specs::Modes::with_mode))]
pub fn with_mode(mask: u32, v: u8, back: u8) -> Marked
    requires { (mask < 65536) × (back ≤ 8) }
    ensures { (result ≡ with_mode mask v back) × (result.mask < 65536) }
{
    match v {
        9..=16 => with_bit(mask, v - 9 + back),
        _ => Marked { mask, low: 7 },
    }
}
