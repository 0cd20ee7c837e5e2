// Sets that are narrowed to the types which are in one of some entries, or not in all of them. Four words at a time are about as fast as vectors are; the words behind the last four
// follow one by one. Which of the two is asked is a const parameter: each loop over fours knows it, and does not ask again at each of them. Assumes nothing.
ghost use Rattle.std.specs.Prelude.{◌≡◌, Bool, true, false, if◌then◌else◌, not, List, ℕ, ◌+◌, ◌*◌, ◌/◌, ◌≤◌, ◌<◌, length};
ghost use Rattle.wordset.specs.Answers.{Answers};
ghost use Rattle.image.specs.Narrowing.{Fours, Narrowed, Stays, joined_four, kept_four, not_all, passing};

use conditions::some_word;

// Answers k of the types that are not in all of the entries r.
pub fn lack_word(cw: &[u64], w: usize, r: u64, k: usize) -> u64
    requires { (w * 64 ≤ length cw.now) × (k < w) }
    ensures { Answers (not_all w cw.now r) k result }
{
    let mut acc: u64 = 0;
    let mut rest = r;
    while rest != 0 {
        let c = rest.trailing_zeros() as usize;
        acc |= !cw[c * w + k];
        rest &= rest - 1;
    }
    acc
}

// Answers k of the types that are in one of the entries r, or, where LACK is true, that are not in all of them.
fn pass_word<const LACK: bool>(cw: &[u64], w: usize, r: u64, k: usize) -> u64
    requires { (w * 64 ≤ length cw.now) × (k < w) }
    ensures { Answers (passing w cw.now r LACK) k result }
{
    if LACK {
        return lack_word(cw, w, r, k);
    }
    some_word(cw, w, r, k)
}

// A word of an entry, or, where LACK is true, of those that are not in the entry.
fn turned<const LACK: bool>(x: u64) -> u64
    ensures { (P : ℕ → Bool) (k : ℕ) → Answers P k x → Answers (λ t. if LACK then not (P t) else P t) k result }
{
    if LACK {
        return !x;
    }
    x
}

// Answers k to k + 3 of the types that `pass_word` asks for.
fn four<const LACK: bool>(cw: &[u64], w: usize, r: u64, k: usize) -> [u64; 4]
    requires { (w * 64 ≤ length cw.now) × (k + 4 ≤ w) }
    ensures { Fours (passing w cw.now r LACK) k result }
{
    let mut a: u64 = 0;
    let mut b: u64 = 0;
    let mut c: u64 = 0;
    let mut d: u64 = 0;
    let mut rest = r;
    while rest != 0 {
        let at = rest.trailing_zeros() as usize * w + k;
        a |= turned::<LACK>(cw[at]);
        b |= turned::<LACK>(cw[at + 1]);
        c |= turned::<LACK>(cw[at + 2]);
        d |= turned::<LACK>(cw[at + 3]);
        rest &= rest - 1;
    }
    [a, b, c, d]
}

// Of words k to k + 3 of dst, what x has stays; the answer joins that to a word.
fn keep_four(dst: &mut [u64], k: usize, x: [u64; 4], any: u64) -> u64
    requires { k + 4 ≤ length dst.old }
    ensures { (dst.new ≡ kept_four dst.old k x) × (result ≡ joined_four dst.old k x any) }
{
    let a = dst[k] & x[0];
    let b = dst[k + 1] & x[1];
    let c = dst[k + 2] & x[2];
    let d = dst[k + 3] & x[3];
    dst[k] = a;
    dst[k + 1] = b;
    dst[k + 2] = c;
    dst[k + 3] = d;
    (((any | a) | b) | c) | d
}

// Of the words of dst that come in fours, the types stay that pass. The answer is 0 if there are none.
fn fours<const LACK: bool>(dst: &mut [u64], cw: &[u64], r: u64, w: usize) -> u64
    requires { (w * 64 ≤ length cw.now) × (w ≤ 1024) × (w ≤ length dst.old) }
    ensures { Narrowed (passing w cw.now r LACK) (w / 4 * 4) dst.old dst.new result }
{
    let mut any: u64 = 0;
    for j in 0..w / 4 {
        any = keep_four(dst, j * 4, four::<LACK>(cw, w, r, j * 4), any);
    }
    any
}

// The words behind the fours follow. Whether any type stays: `fours` is the answer for those before.
fn narrow<const LACK: bool>(dst: &mut [u64], cw: &[u64], r: u64, w: usize, fours: u64) -> bool
    requires { (w * 64 ≤ length cw.now) × (w ≤ 1024) × (w ≤ length dst.old) }
    ensures { (d : List ℕ) → Narrowed (passing w cw.now r LACK) (w / 4 * 4) d dst.old fours → Stays (passing w cw.now r LACK) w d dst.new result }
{
    let mut any = fours;
    for k in w / 4 * 4..w {
        let x = dst[k];
        if x != 0 {
            let y = x & pass_word::<LACK>(cw, w, r, k);
            dst[k] = y;
            any |= y;
        }
    }
    any != 0
}

// Those of dst stay that are in one of the entries r: whether there are any.
pub fn keep_some(dst: &mut [u64], cw: &[u64], r: u64, w: usize) -> bool
    requires { (w * 64 ≤ length cw.now) × (w ≤ 1024) × (w ≤ length dst.old) }
    ensures { Stays (passing w cw.now r false) w dst.old dst.new result }
{
    let any = fours::<false>(dst, cw, r, w);
    narrow::<false>(dst, cw, r, w, any)
}

// Those of dst stay that are not in all of the entries r: whether there are any.
pub fn keep_lacking(dst: &mut [u64], cw: &[u64], r: u64, w: usize) -> bool
    requires { (w * 64 ≤ length cw.now) × (w ≤ 1024) × (w ≤ length dst.old) }
    ensures { Stays (passing w cw.now r true) w dst.old dst.new result }
{
    let any = fours::<true>(dst, cw, r, w);
    narrow::<true>(dst, cw, r, w, any)
}
