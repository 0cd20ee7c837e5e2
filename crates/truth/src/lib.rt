// Truth of every member in all types, block after block. A member is true by its tag, its operands' blocks and places of the lean: an
// until or a release goes through EX and AX over its single modes. A set of types is w words: type t is bit t mod 64 of word t div 64. Throughout, ms is the table of closure
// members, with values that do not occur behind them, ln the lean by its members' places in ms, tw the truth words (block i: the types in which member i is true). Assumes nothing.
#![tactic(auto)]

pub mod blocks;

ghost use Rattle.std.specs.Prelude.{◌≡◌, Bool, ℕ, ◌+◌, ◌*◌, ◌≤◌, ◌<◌, length};
ghost use Rattle.ctl.specs.Types.{in_type};
ghost use Rattle.truth.specs.Tables.{Leans, Table, arg_at, tag_at};
ghost use Rattle.wordset.specs.Answers.{Answers};
ghost use Rattle.truth.specs.Blocks.{BlockIs, Redone, added, has};
ghost use Rattle.truth.specs.Truths.{Stepped, Truths, modal, next_tag, nexts, place_of, plain, true_at};

use blocks::{add_place, expand_block, fill_block, turn_block};
use members::parts::{arg, left, right, tag};

// Answers 0 of the types that have place i, for i below 6: bit b is bit i of b.
const PLACES: [u64; 6] = [
    0xAAAA_AAAA_AAAA_AAAA,
    0xCCCC_CCCC_CCCC_CCCC,
    0xF0F0_F0F0_F0F0_F0F0,
    0xFF00_FF00_FF00_FF00,
    0xFFFF_0000_FFFF_0000,
    0xFFFF_FFFF_0000_0000,
];

// Answers idx of the types that have a place.
pub fn place_word(place: usize, idx: usize) -> u64
    requires { place ≤ 60 }
    ensures { Answers (λ t. in_type t place) idx result }
{
    if place < 6 {
        PLACES[place]
    } else if (idx >> (place - 6)) & 1 == 1 {
        u64::MAX
    } else {
        0
    }
}

// Whether word x is of tag g, with number a and left operand b.
fn is_modal(x: u64, g: u64, a: u64, b: usize) -> bool
    ensures { result ≡ modal x g a b }
{
    tag(x) == g && arg(x) == a && left(x) == b
}

// The first lean place with such a member, or the lean's length.
pub fn find_place(ms: &[u64], ln: &[u8], g: u64, a: u64, b: usize) -> usize
    requires { Leans ms.now ln.now }
    ensures { result ≡ place_of ms.now ln.now g a b }
{
    ln.iter()
        .position(|&i| is_modal(ms[i as usize], g, a, b))
        .unwrap_or(ln.len())
}

// The first member of tag g, or how many members there are.
fn find_plain(ms: &[u64], g: u64) -> usize
    ensures { result ≡ plain ms.now g }
{
    ms.iter().position(|&x| tag(x) == g).unwrap_or(ms.len())
}

// The tag of EX, or of AX where every is true.
fn next_tag(every: bool) -> u64
    ensures { result ≡ next_tag every }
{
    if every { 7 } else { 6 }
}

// EX over one mode of member i with the body b joins block i; where every is true, only AX over each of them stays in it.
fn add_modes(ms: &[u64], ln: &[u8], tw: &mut [u64], w: usize, i: usize, b: usize, every: bool)
    requires leans { Leans ms.now ln.now }
    requires i_in_bounds { (i < length ms.now) × (i * w + w ≤ length tw.old) }
    ensures { (P : ℕ → Bool) → BlockIs P w i tw.old → Redone w i (λ t. added every (P t) (nexts ms.now ln.now every (arg_at ms.now i) b t)) tw.old tw.new }
{
    let g = next_tag(every);
    let mut rest = arg(ms[i]);
    while rest != 0 {
        let m = rest.trailing_zeros() as usize;
        add_place(tw, w, i, find_place(ms, ln, g, 1 << m, b), every);
        rest &= rest - 1;
    }
}

// Block i becomes the types in which EX over one mode of member i with the body b is true; where every is true, AX over each of them.
fn next_block(ms: &[u64], ln: &[u8], tw: &mut [u64], w: usize, i: usize, b: usize, every: bool)
    requires leans { Leans ms.now ln.now }
    requires i_in_bounds { (i < length ms.now) × (i * w + w ≤ length tw.old) }
    ensures { Redone w i (nexts ms.now ln.now every (arg_at ms.now i) b) tw.old tw.new }
{
    fill_block(tw, w, i, every);
    add_modes(ms, ln, tw, w, i, b, every);
}

// Block i becomes the types in which member i, which has no operands, is true.
fn leaf_block(ms: &[u64], ln: &[u8], tw: &mut [u64], w: usize, i: usize)
    requires table { Table ms.now }
    requires leans { Leans ms.now ln.now }
    requires i_in_bounds { (i < length ms.now) × (i * w + w ≤ length tw.old) × (tag_at ms.now i < 4) }
    ensures { Redone w i (true_at ms.now ln.now i) tw.old tw.new }
{
    let x = ms[i];
    let g = tag(x);
    fill_block(tw, w, i, g == 0);
    if g >= 2 {
        add_place(tw, w, i, find_place(ms, ln, 2, arg(x), 0), false);
    }
    if g == 3 {
        turn_block(tw, w, i);
    }
}

// Block i becomes what member i, an until or a release, says of the next types: whether it is an until.
fn step_block(ms: &[u64], ln: &[u8], tw: &mut [u64], w: usize, i: usize) -> bool
    requires table { Table ms.now }
    requires leans { Leans ms.now ln.now }
    requires i_in_bounds { (i < length ms.now) × (i * w + w ≤ length tw.old) × (8 ≤ tag_at ms.now i) }
    ensures { Stepped ms.now ln.now w i result tw.old tw.new }
{
    match tag(ms[i]) {
        8 => {
            next_block(ms, ln, tw, w, i, i, false);
            true
        }
        9 => {
            next_block(ms, ln, tw, w, i, find_plain(ms, 0), false);
            add_modes(ms, ln, tw, w, i, i, true);
            true
        }
        11 => {
            next_block(ms, ln, tw, w, i, i, true);
            false
        }
        _ => {
            next_block(ms, ln, tw, w, i, find_plain(ms, 1), true);
            add_modes(ms, ln, tw, w, i, i, false);
            false
        }
    }
}

// Block i becomes the types in which member i is true, where the blocks before it are right.
fn truth_block(ms: &[u64], ln: &[u8], tw: &mut [u64], w: usize, i: usize)
    requires table { Table ms.now }
    requires leans { Leans ms.now ln.now }
    requires i_in_bounds { (i < length ms.now) × (i * w + w ≤ length tw.old) }
    requires by_index { (j : ℕ) → j < i → BlockIs (true_at ms.now ln.now j) w j tw.old }
    ensures { Redone w i (true_at ms.now ln.now i) tw.old tw.new }
{
    let x = ms[i];
    let g = tag(x);
    match g {
        0..=3 => leaf_block(ms, ln, tw, w, i),
        4 | 5 => {
            fill_block(tw, w, i, g == 5);
            expand_block(tw, w, i, left(x), right(x), g == 5);
        }
        6 | 7 => next_block(ms, ln, tw, w, i, left(x), g == 7),
        _ => {
            let until = step_block(ms, ln, tw, w, i);
            expand_block(tw, w, i, left(x), right(x), until);
        }
    }
}

// Block i of tw becomes the types in which member i is true.
pub fn truth_words(ms: &[u64], ln: &[u8], tw: &mut [u64], w: usize)
    requires table { Table ms.now }
    requires leans { Leans ms.now ln.now }
    requires w_in_bounds { length ms.now * w ≤ length tw.old }
    ensures { Truths ms.now ln.now w tw.new }
{
    for i in 0..ms.len() {
        truth_block(ms, ln, tw, w, i);
    }
}

// Whether block i has bit t.
pub fn bit_at(ws: &[u64], w: usize, i: usize, t: usize) -> bool
    requires { (i * w + w ≤ length ws.now) × (t < w * 64) }
    ensures { result ≡ has w ws.now i t }
{
    wordset::contains(&ws[i * w..], t)
}
