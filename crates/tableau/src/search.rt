// The search of an EU or an AU: which types of a family have what it asks for, rank by rank. It works in one copy of the family, lent to it
// and used again from one search to the next: ranked are the types of the family that are no longer in the copy. Assumes nothing.
ghost use Rattle.std.specs.Prelude.{◌≡◌, true, false, not, ◌&&◌, List, ℕ, ◌*◌, ◌≤◌, ◌<◌, length};
ghost use Rattle.ctl.specs.Lists.{imp};
ghost use Rattle.wordset.specs.Below.{any_below};
ghost use Rattle.wordset.specs.Words.{member};
ghost use Rattle.members.specs.Members.{tag_w};
ghost use Rattle.truth.specs.Blocks.{has};
ghost use Rattle.needs.specs.NeedWords.{mode_w, whole_w};
ghost use Rattle.needs.specs.Needs.{Among};
ghost use Rattle.tableau.specs.Families.{Finds, Made, Ready, Until, Within, ex_along, has_next, has_nexts, leaving, ranked};

use crate::words::Words;
use image::blocks::{meet, omit, pick, pick_less, release};
use image::{confine_linked, drop_linked};
use members::parts::{arg, has_mode, left, right, tag};
use needs::parts::{mode, whole};

// Whether need x is an EX over one of the modes a.
fn along(x: u64, a: u64) -> bool
    requires { tag_w x ≡ 6 → mode_w x < 16 }
    ensures { result ≡ ex_along a x }
{
    if tag(x) != 6 {
        return false;
    }
    has_mode(a, mode(x))
}

// Those of dst stay in which need x, if it is an EX over one of the modes a, has its next among the ranked. The first w words of v and of
// rest are overwritten.
fn follow(
    words: &Words<'_>,
    x: u64,
    a: u64,
    src: &[u64],
    copy: &[u64],
    dst: &mut [u64],
    v: &mut [u64],
    rest: &mut [u64],
)
    requires among { Among words.now.ns.now x × Made words.now.w words.now.tw.now words.now.cw.now words.now.ns.now }
    requires w_in_bounds { (words.now.w ≤ length src.now) × (words.now.w ≤ length copy.now) × (words.now.w ≤ length dst.old) × (words.now.w ≤ length v.old) × (words.now.w ≤ length rest.old) }
    ensures { (t : ℕ) → t < words.now.w * 64 → member dst.new t ≡ (member dst.old t && imp (ex_along a x) (has_next words.now.w words.now.tw.now words.now.cw.now (member (ranked words.now.w src.now copy.now)) x t)) }
{
    if !along(x, a) {
        return;
    }
    if pick(v, dst, words.tw, words.w, whole(x)) {
        pick_less(rest, src, copy, words.tw, words.w, left(x));
        confine_linked(dst, v, rest, words.cw, words.w, mode(x));
    }
}

// The same for every need, so that every EX over one of the modes a has its next among the ranked.
fn follow_all(
    words: &Words<'_>,
    a: u64,
    src: &[u64],
    copy: &[u64],
    dst: &mut [u64],
    v: &mut [u64],
    rest: &mut [u64],
)
    requires made { Made words.now.w words.now.tw.now words.now.cw.now words.now.ns.now }
    requires w_in_bounds { (words.now.w ≤ length src.now) × (words.now.w ≤ length copy.now) × (words.now.w ≤ length dst.old) × (words.now.w ≤ length v.old) × (words.now.w ≤ length rest.old) }
    ensures { (t : ℕ) → t < words.now.w * 64 → member dst.new t ≡ (member dst.old t && has_nexts words.now.w words.now.tw.now words.now.cw.now words.now.ns.now (member (ranked words.now.w src.now copy.now)) a t) }
{
    for &x in words.ns {
        follow(words, x, a, src, copy, dst, v, rest);
    }
}

// The next rank: those of the copy leave it that have the left operand of need x, an EU or an AU, and what it asks for against the ranked.
// Whether any did. The first w words of v and of rest are overwritten, for an AU those of `todo` too: each of its needs is asked of what the
// others left.
fn rank_next(
    words: &Words<'_>,
    x: u64,
    src: &[u64],
    copy: &mut [u64],
    todo: &mut [u64],
    v: &mut [u64],
    rest: &mut [u64],
) -> bool
    requires among { Among words.now.ns.now x × Made words.now.w words.now.tw.now words.now.cw.now words.now.ns.now }
    requires w_in_bounds { (words.now.w ≤ length src.now) × (words.now.w ≤ length copy.old) × (words.now.w ≤ length todo.old) × (words.now.w ≤ length v.old) × (words.now.w ≤ length rest.old) }
    ensures by_index { (t : ℕ) → t < words.now.w * 64 → member copy.new t ≡ (member copy.old t && not (leaving words.now.w words.now.tw.now words.now.cw.now words.now.ns.now src.now copy.old x t)) }
    ensures value { result ≡ any_below (words.now.w * 64) (λ t. member copy.old t && (leaving words.now.w words.now.tw.now words.now.cw.now words.now.ns.now src.now copy.old x t)) }
{
    let p = left(x);
    if tag(x) == 8 {
        if !pick(v, copy, words.tw, words.w, p) {
            return false;
        }
        drop_linked(v, rest, src, copy, words.cw, words.w, arg(x));
        return release(copy, words.tw, words.w, p, v);
    }
    if !pick(todo, copy, words.tw, words.w, p) {
        return false;
    }
    follow_all(words, arg(x), src, copy, todo, v, rest);
    wordset::subtract(copy, todo, words.w)
}

// The copy, whatever it held, becomes the family src less the types with the right operand of need x, an EU or an AU; then it loses rank after
// rank, until none of dst is left in it that has the need (true), or a rank has no types (false). The first w words of `todo`, v and rest are
// overwritten.
pub fn search(
    words: &Words<'_>,
    x: u64,
    src: &[u64],
    dst: &[u64],
    copy: &mut [u64],
    todo: &mut [u64],
    v: &mut [u64],
    rest: &mut [u64],
) -> bool
    requires among { Among words.now.ns.now x × ((tag_w x ≡ 6 → ⊥) × Made words.now.w words.now.tw.now words.now.cw.now words.now.ns.now) }
    requires w_in_bounds { (words.now.w ≤ length src.now) × (words.now.w ≤ length dst.now) × (words.now.w ≤ length copy.old) × (words.now.w ≤ length todo.old) × (words.now.w ≤ length v.old) × (words.now.w ≤ length rest.old) }
    requires within { Within words.now.w dst.now src.now }
    ensures by_index { (ms ln : List ℕ) (i : ℕ) → Ready ms ln words.now.w words.now.tw.now words.now.cw.now words.now.ns.now → Until ms x i → Finds ms ln words.now.w words.now.tw.now src.now dst.now i copy.new }
    ensures t_after { result ≡ true → (t : ℕ) → t < words.now.w * 64 → member dst.now t ≡ true → has words.now.w words.now.tw.now (whole_w x) t ≡ true → member copy.new t ≡ false }
{
    let i = whole(x);
    omit(copy, src, words.tw, words.w, right(x));
    loop {
        if !meet(dst, copy, words.tw, words.w, i) {
            return true;
        }
        if !rank_next(words, x, src, copy, todo, v, rest) {
            return false;
        }
    }
}
