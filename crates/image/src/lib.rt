// Types that are linked to a set, by the conditions of links. Whoever is linked to a type is linked to every type that refuses less, so a set is covered by few of the
// sets of conditions that its types refuse. Assumes nothing.
#![tactic(auto)]

pub mod blocks;
mod narrowing;

ghost use Rattle.std.specs.Prelude.{◌≡◌, Bool, true, false, not, ◌&&◌, ◌||◌, ℕ, ◌+◌, ◌*◌, ◌/◌, ◌%◌, ◌^◌, ◌≤◌, ◌<◌, length, get_or};
ghost use Rattle.ctl.specs.Modes.{has_mode};
ghost use Rattle.wordset.specs.Answers.{Answers};
ghost use Rattle.wordset.specs.Below.{any_below};
ghost use Rattle.wordset.specs.Word.{bit};
ghost use Rattle.wordset.specs.Words.{member, minus, packed};
ghost use Rattle.truth.specs.Blocks.{has};
ghost use Rattle.conditions.specs.Entries.{in_some, linked_to, refusing, side};
ghost use Rattle.image.specs.Covering.{Refused, RefusedBy};
ghost use Rattle.image.specs.Narrowing.{not_all};

use crate::narrowing::{keep_lacking, keep_some, lack_word};
use conditions::some_word;

// Word x with the numbers of word y, if on is true.
fn join_if(x: u64, y: u64, on: bool) -> u64
    ensures { (result < 2 ^ 64) × ((c : ℕ) → bit result c ≡ (bit x c || (bit y c && on))) }
{
    if on {
        return x | y;
    }
    x
}

// The entries in which a refusal counts, from the other end of a link: each number moved by 32.
fn partners(r: u64) -> u64
    ensures { (c : ℕ) → c < 64 → bit result c ≡ bit r ((c + 32) % 64) }
{
    r.rotate_right(32)
}

// Of the entries a, those that have type 64k + b.
fn refusal_set(cw: &[u64], w: usize, a: u64, k: usize, b: usize) -> u64
    requires { (w * 64 ≤ length cw.now) × (k < w) × (b < 64) }
    ensures { RefusedBy w cw.now a (k * 64 + b) result }
{
    let mut acc: u64 = 0;
    let mut rest = a;
    while rest != 0 {
        let c = rest.trailing_zeros() as usize;
        let next = rest & (rest - 1);
        acc = join_if(acc, rest & !next, (cw[c * w + k] >> b) & 1 == 1);
        rest = next;
    }
    acc
}

// Of the types that word x at k has, those that refuse in some of the entries r only, of all entries a.
fn fewer_word(cw: &[u64], w: usize, a: u64, r: u64, k: usize, x: u64) -> u64
    requires { (w * 64 ≤ length cw.now) × (k < w) }
    ensures { (P : ℕ → Bool) → Answers P k x → Answers (λ u. P u && (not_all w cw.now r u && not (any_below 64 (λ c. (bit a c && not (bit r c)) && has w cw.now c u)))) k result }
{
    if x == 0 {
        return 0;
    }
    let y = x & lack_word(cw, w, r, k);
    if y == 0 {
        return 0;
    }
    y & !some_word(cw, w, a & !r, k)
}

// What a type of rest refuses, where r is that too: as little of r as one does that refuses no more. Words before `from` are passed over.
fn smaller(rest: &[u64], cw: &[u64], a: u64, w: usize, r: u64, from: usize) -> u64
    requires w_in_bounds { (w * 64 ≤ length cw.now) × (w ≤ 1024) × (w ≤ length rest.now) }
    requires refused { Refused w cw.now a rest.now r }
    ensures { Refused w cw.now a rest.now result }
{
    let mut s = r;
    for k in from..w {
        // The word is asked again after it gave a type: another of it may refuse less yet.
        loop {
            if s == 0 {
                return s;
            }
            if s & (s - 1) == 0 {
                return s;
            }
            let x = fewer_word(cw, w, a, s, k, rest[k]);
            if x == 0 {
                break;
            }
            s = refusal_set(cw, w, a, k, x.trailing_zeros() as usize);
        }
    }
    s
}

// Those of dst stay that are linked to no type of rest, whose first w words are overwritten; a type of rest refuses in the entries a. False only if none stays. Each
// turn takes a type of rest, and with it all that refuse what it refuses: whoever is linked to one of those is linked to it. From the second turn on it is one that
// refuses little; most calls end with the first.
fn drain(dst: &mut [u64], rest: &mut [u64], cw: &[u64], a: u64, w: usize) -> bool
    requires { (w * 64 ≤ length cw.now) × (w ≤ 1024) × (w ≤ length dst.old) × (w ≤ length rest.old) }
    ensures by_index { (t : ℕ) → t < w * 64 → member dst.new t ≡ (member dst.old t && not (linked_to w cw.now a (member rest.old) t)) }
    ensures t_after { result ≡ false → (t : ℕ) → t < w * 64 → member dst.new t ≡ false }
{
    let q = wordset::first(rest, w);
    if q == w * 64 {
        return true;
    }
    let mut r = refusal_set(cw, w, a, q / 64, q % 64);
    loop {
        if !keep_some(dst, cw, partners(r), w) {
            return false;
        }
        if !keep_lacking(rest, cw, r, w) {
            return true;
        }
        let p = wordset::first(rest, w);
        let k = p / 64;
        r = smaller(rest, cw, a, w, refusal_set(cw, w, a, k, p % 64), k);
    }
}

// Whether one of rest is not in entry e.
fn exceeds(rest: &[u64], cw: &[u64], w: usize, e: usize) -> bool
    requires { (w * 64 ≤ length cw.now) × (w ≤ length rest.now) × (e < 64) }
    ensures { result ≡ any_below (w * 64) (λ t. member rest.now t && not (has w cw.now e t)) }
{
    let mut any: u64 = 0;
    for k in 0..w {
        any |= rest[k] & !cw[e * w + k];
    }
    any != 0
}

// Of v, those leave dst that are not linked along mode m to a type of rest. The first w words of v and of rest are overwritten. Where a type of rest refuses nothing,
// all are linked to it.
pub fn confine_linked(
    dst: &mut [u64],
    v: &mut [u64],
    rest: &mut [u64],
    cw: &[u64],
    w: usize,
    m: usize,
)
    requires w_in_bounds { (w * 64 + 16 ≤ length cw.now) × (w ≤ 1024) × (m < 16) }
    requires by_index { (t : ℕ) → t < w * 64 → has w cw.now (refusing m) t ≡ in_some w cw.now (side w cw.now m) t }
    requires w_in_bounds_2 { (w ≤ length dst.old) × (w ≤ length v.old) × (w ≤ length rest.old) }
    ensures { dst.new ≡ packed w (λ t. member dst.old t && not (member v.old t && not (linked_to w cw.now (side w cw.now m) (member rest.old) t))) dst.old }
{
    if exceeds(rest, cw, w, 24 + m % 8 + m / 8 * 32) {
        return;
    }
    if drain(v, rest, cw, cw[w * 64 + m], w) {
        wordset::subtract(dst, v, w);
    }
}

// Those of v stay that are linked by none of the modes a to a type of src that is not in u. The first w words of rest are overwritten. Where such a type refuses nothing along
// one of them, none stays.
pub fn drop_linked(
    v: &mut [u64],
    rest: &mut [u64],
    src: &[u64],
    u: &[u64],
    cw: &[u64],
    w: usize,
    a: u64,
)
    requires w_in_bounds { (w * 64 + 16 ≤ length cw.now) × (w ≤ 1024) × (a < 65536) }
    requires by_index { (m t : ℕ) → m < 16 → t < w * 64 → has w cw.now (refusing m) t ≡ in_some w cw.now (side w cw.now m) t }
    requires w_in_bounds_2 { (w ≤ length v.old) × (w ≤ length rest.old) × (w ≤ length src.now) × (w ≤ length u.now) }
    ensures { (t : ℕ) → t < w * 64 → member v.new t ≡ (member v.old t && not (any_below 16 (λ m. has_mode a m && linked_to w cw.now (side w cw.now m) (member (minus w src.now u.now)) t))) }
{
    let mut left = a;
    while left != 0 {
        let m = left.trailing_zeros() as usize;
        wordset::less(rest, src, u, w);
        if exceeds(rest, cw, w, 24 + m % 8 + m / 8 * 32) {
            wordset::less(v, src, src, w);
            return;
        }
        if !drain(v, rest, cw, cw[w * 64 + m], w) {
            return;
        }
        left &= left - 1;
    }
}
