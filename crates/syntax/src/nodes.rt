// Nodes in a table that the caller lends, and what reading a formula finds. Assumes nothing.
ghost use Rattle.std.specs.Prelude.{◌≡◌, ◌+◌, ◌-◌, ◌<◌, length, [], ◌∷◌};
ghost use Rattle.syntax.specs.Raw.{node_of, Wrote};
ghost use Rattle.syntax.specs.Parse.{letter_low, parsed};

// What reading a formula or a unit finds: the position after it, how many nodes the table then holds, and the lowest refusal of its
// symbols and braces (7, 8, or 9 for none).
#[derive(Clone, Copy)]
pub struct Parsed {
    pub next: usize,
    pub count: usize,
    pub low: u8,
}

pub fn node(kind: u8, arg: u32, left: usize) -> u64
    requires { (kind < 32) × ((arg < 65536) × (left < 1024)) }
    ensures { result ≡ node_of kind arg left }
{
    u64::from(kind) + 32 * (left as u64) + 32768 * u64::from(arg)
}

#[tactic(auto, unfolding(crate::specs::Parse::letter_low))]
pub fn letter_low(v: u8) -> u8
    ensures { result ≡ letter_low v }
{
    match v {
        1..=8 => 9,
        _ => 7,
    }
}

pub fn below(v: u8) -> u32
    ensures { result ≡ v - 1 }
{
    u32::from(v.saturating_sub(1))
}

// Appends a node.
pub fn emit(tab: &mut [u64], n: usize, v: u64, next: usize, low: u8) -> Parsed
    requires { n < length tab.old }
    ensures { (result ≡ parsed next (n + 1) low) × Wrote n (n + 1) (v ∷ []) tab.old tab.new }
{
    tab[n] = v;
    Parsed {
        next,
        count: n + 1,
        low,
    }
}
