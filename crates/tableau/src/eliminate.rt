// The elimination, by words: a round keeps the types of a family that lack nothing which they need, and rounds go on until one eliminates
// nothing. Assumes nothing.
ghost use Rattle.std.specs.Prelude.{◌≡◌, ◌&&◌, List, ℕ, ◌*◌, ◌≤◌, ◌<◌, length};
ghost use Rattle.std.specs.Bool.{beq};
ghost use Rattle.ctl.specs.Lists.{elem};
ghost use Rattle.wordset.specs.Below.{all_below};
ghost use Rattle.wordset.specs.Words.{member, packed};
ghost use Rattle.truth.specs.Blocks.{list_of};
ghost use Rattle.needs.specs.Needs.{Among};
ghost use Rattle.tableau.specs.Families.{Made, Ready, Round, Rounds, Survivors, Within, stays};

use crate::search::search;
use crate::words::Words;
use image::blocks::pick;
use image::confine_linked;
use members::parts::{left, tag};
use needs::parts::{mode, whole};

// Those of dst that lack what need x asks for against src are eliminated.
fn eliminate_need(
    words: &Words<'_>,
    x: u64,
    src: &[u64],
    dst: &mut [u64],
    copy: &mut [u64],
    todo: &mut [u64],
    v: &mut [u64],
    rest: &mut [u64],
)
    requires among { Among words.now.ns.now x × Made words.now.w words.now.tw.now words.now.cw.now words.now.ns.now }
    requires w_in_bounds { (words.now.w ≤ length src.now) × (words.now.w ≤ length dst.old) × (words.now.w ≤ length copy.old) × (words.now.w ≤ length todo.old) × (words.now.w ≤ length v.old) × (words.now.w ≤ length rest.old) }
    requires within { Within words.now.w dst.old src.now }
    ensures { (ms ln : List ℕ) → Ready ms ln words.now.w words.now.tw.now words.now.cw.now words.now.ns.now → dst.new ≡ packed words.now.w (λ t. member dst.old t && stays ms ln words.now.w words.now.tw.now words.now.cw.now src.now x t) dst.old }
{
    if tag(x) == 6 {
        if pick(v, dst, words.tw, words.w, whole(x)) {
            pick(rest, src, words.tw, words.w, left(x));
            confine_linked(dst, v, rest, words.cw, words.w, mode(x));
        }
        return;
    }
    if search(words, x, src, dst, copy, todo, v, rest) {
        return;
    }
    pick(v, copy, words.tw, words.w, whole(x));
    wordset::subtract(dst, v, words.w);
}

// One round, from src into dst: whether it eliminated nothing.
pub fn round(
    words: &Words<'_>,
    src: &[u64],
    dst: &mut [u64],
    copy: &mut [u64],
    todo: &mut [u64],
    v: &mut [u64],
    rest: &mut [u64],
) -> bool
    requires made { Made words.now.w words.now.tw.now words.now.cw.now words.now.ns.now }
    requires w_in_bounds { (words.now.w ≤ length src.now) × (words.now.w ≤ length dst.old) × (words.now.w ≤ length copy.old) × (words.now.w ≤ length todo.old) × (words.now.w ≤ length v.old) × (words.now.w ≤ length rest.old) }
    ensures by_index { (ms ln : List ℕ) → Ready ms ln words.now.w words.now.tw.now words.now.cw.now words.now.ns.now → dst.new ≡ packed words.now.w (λ t. elem t (Round ms ln (list_of words.now.w src.now))) dst.old }
    ensures value { result ≡ all_below (words.now.w * 64) (λ t. beq (member src.now t) (member dst.new t)) }
{
    wordset::copy(dst, src, words.w);
    for &x in words.ns {
        eliminate_need(words, x, src, dst, copy, todo, v, rest);
    }
    wordset::equal(src, dst, words.w)
}

// Rounds from the first store into the second and back, until one eliminates nothing: how many eliminated something. Both stores then
// hold the survivors.
pub fn settle(
    words: &Words<'_>,
    first: &mut [u64],
    second: &mut [u64],
    copy: &mut [u64],
    todo: &mut [u64],
    v: &mut [u64],
    rest: &mut [u64],
) -> usize
    requires made { Made words.now.w words.now.tw.now words.now.cw.now words.now.ns.now }
    requires w_in_bounds { (words.now.w ≤ length first.old) × (words.now.w ≤ length second.old) × (words.now.w ≤ length copy.old) × (words.now.w ≤ length todo.old) × (words.now.w ≤ length v.old) × (words.now.w ≤ length rest.old) }
    ensures by_index { (ms ln : List ℕ) → Ready ms ln words.now.w words.now.tw.now words.now.cw.now words.now.ns.now → result ≡ Rounds ms ln (list_of words.now.w first.old) }
    ensures by_index_2 { (ms ln : List ℕ) → Ready ms ln words.now.w words.now.tw.now words.now.cw.now words.now.ns.now → first.new ≡ packed words.now.w (λ t. elem t (Survivors ms ln (list_of words.now.w first.old))) first.old }
    ensures by_index_3 { (ms ln : List ℕ) → Ready ms ln words.now.w words.now.tw.now words.now.cw.now words.now.ns.now → second.new ≡ packed words.now.w (λ t. elem t (Survivors ms ln (list_of words.now.w first.old))) second.old }
{
    let mut n = 0;
    loop {
        if round(words, first, second, copy, todo, v, rest) {
            return n;
        }
        n += 1;
        if round(words, second, first, copy, todo, v, rest) {
            return n;
        }
        n += 1;
    }
}
