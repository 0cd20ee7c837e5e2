// A closure member in one word: its parts, and sets of modes. Assumes nothing.
ghost use Rattle.std.specs.Prelude.{◌≡◌, true, ◌⊎◌, ◌-◌, ◌/◌, ◌%◌, ◌^◌, ◌≤◌, ◌<◌};
ghost use Rattle.ctl.specs.Modes.{has_mode, single};
ghost use Rattle.members.specs.Members.{arg_w, left_w, right_w, tag_w};
ghost use Rattle.members.specs.ModeLists.{modes_from};

// The tag of a member's word.
pub fn tag(x: u64) -> u64
    ensures { result ≡ tag_w x }
{
    x % 16
}

// Its symbol or its set of modes.
pub fn arg(x: u64) -> u64
    ensures { result ≡ arg_w x }
{
    x / 16 % 65536
}

// The place of its left operand, or of its only one.
pub fn left(x: u64) -> usize
    ensures { result ≡ left_w x }
{
    (x / 1048576 % 256) as usize
}

// The place of its right operand.
pub fn right(x: u64) -> usize
    ensures { result ≡ right_w x }
{
    (x / 268435456 % 256) as usize
}

// Whether mode m is in the set a.
pub fn has_mode(a: u64, m: usize) -> bool
    requires { m < 16 }
    ensures { result ≡ has_mode a m }
{
    (a >> m) & 1 == 1
}

// The mode of a set of one mode, and 16 for any other set.
pub fn mode_of(a: u64) -> usize
    ensures { ((result < 16) × (a ≡ 2 ^ result)) ⊎ ((result ≡ 16) × (single a ≡ true → ⊥)) }
{
    let m = a.trailing_zeros() as usize;
    if m < 16 && a == 1 << m { m } else { 16 }
}

// The lowest mode of a set that has one.
pub fn first_mode(a: u64) -> u64
    requires { a < 65536 }
    ensures { ((result ≤ 16) × (a / 2 ^ result < 2 ^ (16 - result))) × ((0 < a → a / 2 ^ result % 2 ≡ 1) × (modes_from result (a / 2 ^ result) ≡ modes_from 0 a)) }
{
    if a == 0 {
        return 0;
    }
    u64::from(a.trailing_zeros())
}
