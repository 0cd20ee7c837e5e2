// Sets of numbers as bits of 64-bit words: number j is bit j mod 64 of word j div 64. Every function takes any word count.
#![tactic(auto)]

ghost use Rattle.std.specs.Prelude.{◌≡◌, not, ◌&&◌, ℕ, ◌+◌, ◌*◌, ◌^◌, ◌≤◌, ◌<◌, length};
ghost use Rattle.std.specs.Bool.{beq};
ghost use Rattle.wordset.specs.Below.{all_below, any_below, count_below, least};
ghost use Rattle.wordset.specs.Words.{member, packed, minus};

// Whether j is a member.
pub fn contains(ws: &[u64], j: usize) -> bool
    requires { j < length ws.now * 64 }
    ensures { result ≡ member ws.now j }
{
    (ws[j / 64] >> (j % 64)) & 1 == 1
}

// dst := src, in the first w words.
pub fn copy(dst: &mut [u64], src: &[u64], w: usize)
    requires { (w ≤ length dst.old) × (w ≤ length src.now) }
    ensures { dst.new ≡ packed w (member src.now) dst.old }
{
    // Not `copy_from_slice`, which asks for the C library's memmove.
    for i in 0..w {
        dst[i] = src[i];
    }
}

// dst := dst less src, in the first w words: whether src has any.
pub fn subtract(dst: &mut [u64], src: &[u64], w: usize) -> bool
    requires { (w ≤ length dst.old) × (w ≤ length src.now) }
    ensures dst_after { dst.new ≡ minus w dst.old src.now }
    ensures value { result ≡ any_below (w * 64) (member src.now) }
{
    let mut any = 0;
    for i in 0..w {
        dst[i] &= !src[i];
        any |= src[i];
    }
    any != 0
}

// dst := a less b, in the first w words.
pub fn less(dst: &mut [u64], a: &[u64], b: &[u64], w: usize)
    requires { (w ≤ length dst.old) × (w ≤ length a.now) × (w ≤ length b.now) }
    ensures { dst.new ≡ packed w (λ j. member a.now j && not (member b.now j)) dst.old }
{
    for i in 0..w {
        dst[i] = a[i] & !b[i];
    }
}

// Whether the sets have the same numbers below 64 * w.
pub fn equal(a: &[u64], b: &[u64], w: usize) -> bool
    requires { (w ≤ length a.now) × (w ≤ length b.now) }
    ensures { result ≡ all_below (w * 64) (λ j. beq (member a.now j) (member b.now j)) }
{
    a[..w] == b[..w]
}

// How many numbers below 64 * w are members.
pub fn size(ws: &[u64], w: usize) -> usize
    requires { (w ≤ length ws.now) × (w * 64 < 2 ^ 64) }
    ensures { result ≡ count_below (w * 64) (member ws.now) }
{
    let mut n = 0;
    for &x in &ws[..w] {
        n += x.count_ones() as usize;
    }
    n
}

// The least member below 64 * w, or 64 * w.
pub fn first(ws: &[u64], w: usize) -> usize
    requires { (w ≤ length ws.now) × (w * 64 < 2 ^ 64) }
    ensures { result ≡ least (w * 64) (member ws.now) }
{
    for (i, &x) in ws[..w].iter().enumerate() {
        if x != 0 {
            return i * 64 + x.trailing_zeros() as usize;
        }
    }
    w * 64
}
