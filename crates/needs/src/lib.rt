// What a round asks for, listed once for a sheet, and the blocks of truth words that are wanted for it besides those of the members. Assumes nothing.
#![tactic(auto)]

pub mod parts;

ghost use Rattle.std.specs.Prelude.{◌≡◌, Bool, ◌&&◌, ◌||◌, cond, ℕ, ◌+◌, ◌*◌, ◌%◌, ◌^◌, ◌≤◌, ◌<◌, eqb, length, set, take};
ghost use Rattle.ctl.specs.Modes.{has_mode};
ghost use Rattle.members.specs.Members.{arg_w, tag_w};
ghost use Rattle.truth.specs.Blocks.{BlockIs, Redone};
ghost use Rattle.truth.specs.Truths.{Truths};
ghost use Rattle.needs.specs.NeedWords.{field_need};
ghost use Rattle.needs.specs.Needs.{Fields, Listed, ex_over, some_ex};
ghost use Rattle.needs.specs.FieldBlocks.{ExFields};
ghost use Rattle.needs.specs.Listing.{Asks, SoFar};

use members::parts::{arg, has_mode, mode_of, tag};
use truth::blocks::fill_block;

// The field of an EX over one field alone, as a set of modes; no mode for any other member.
fn field_of(x: u64) -> u64
    ensures { (f : ℕ) → f < 8 → has_mode result f ≡ (eqb (tag_w x) 6 && eqb (arg_w x) (2 ^ f)) }
{
    let a = arg(x);
    if tag(x) == 6 && mode_of(a) < 8 { a } else { 0 }
}

// The fields over which there is an EX.
fn ex_fields(ms: &[u64]) -> u64
    ensures { ExFields ms.now result }
{
    let mut acc = 0;
    for &x in ms {
        acc |= field_of(x);
    }
    acc
}

// Block e gets the types of block i, which is before it, besides its own.
fn join_block(tw: &mut [u64], w: usize, e: usize, i: usize)
    requires { (i < e) × (e * w + w ≤ length tw.old) }
    ensures { (P Q : ℕ → Bool) → BlockIs P w e tw.old → BlockIs Q w i tw.old → Redone w e (λ t. P t || Q t) tw.old tw.new }
{
    for k in 0..w {
        tw[e * w + k] |= tw[i * w + k];
    }
}

// The same where member i is an EX over field f alone; else nothing.
fn join_member(ms: &[u64], tw: &mut [u64], w: usize, f: usize, e: usize, i: usize)
    requires { (f < 8) × (i < length ms.now) × (length ms.now ≤ e) × (e * w + w ≤ length tw.old) }
    ensures { (P Q : ℕ → Bool) → BlockIs P w e tw.old → BlockIs Q w i tw.old → Redone w e (λ t. P t || (ex_over ms.now f i && Q t)) tw.old tw.new }
{
    if has_mode(field_of(ms[i]), f) {
        join_block(tw, w, e, i);
    }
}

// The block of field f becomes the types in which some EX over it is true; a is the fields over which there is one.
fn field_block(ms: &[u64], ln: &[u8], tw: &mut [u64], w: usize, a: u64, f: usize)
    requires truths { Truths ms.now ln.now w tw.old × ExFields ms.now a }
    requires f_bound { (f < 8) × ((length ms.now + f) * w + w ≤ length tw.old) }
    ensures { Redone w (length ms.now + f) (some_ex ms.now ln.now f) tw.old tw.new }
{
    let e = ms.len() + f;
    fill_block(tw, w, e, false);
    if !has_mode(a, f) {
        return;
    }
    for i in 0..ms.len() {
        join_member(ms, tw, w, f, e, i);
    }
}

// Behind the blocks of the members: for each field the types in which some EX over it is true, then all types.
pub fn field_words(ms: &[u64], ln: &[u8], tw: &mut [u64], w: usize)
    requires truths { Truths ms.now ln.now w tw.old }
    requires w_in_bounds { ((length ms.now + 9) * w ≤ length tw.old) × (w ≤ 1024) }
    ensures truths_2 { Truths ms.now ln.now w tw.new }
    ensures fields { Fields ms.now ln.now w tw.new }
{
    let a = ex_fields(ms);
    for f in 0..8 {
        field_block(ms, ln, tw, w, a, f);
    }
    fill_block(tw, w, ms.len() + 8, true);
}

// Whether a member has a need of its own.
fn asks(x: u64) -> bool
    ensures { Asks x result }
{
    match tag(x) {
        6 => {
            let m = mode_of(arg(x));
            8 <= m && m < 16
        }
        8 | 9 => true,
        _ => false,
    }
}

// The need of a member, by its word and its place.
fn need_of(x: u64, i: usize) -> u64
    requires { i < 256 }
    ensures { result ≡ x % 68719476736 + i * 68719476736 }
{
    x % 68719476736 + (i as u64) * 68719476736
}

// The need of all EX over field f alone, behind n members.
fn field_need(n: usize, f: usize) -> u64
    requires { (n ≤ 240) × (f < 8) }
    ensures { result ≡ field_need n f }
{
    let m: u64 = 1 << f;
    6 + 16 * m + 1048576 * ((n + 8) as u64) + ((n + f) as u64) * 68719476736
}

// x at place r if on is true; the place after.
fn push_if(ns: &mut [u64], r: usize, x: u64, on: bool) -> usize
    requires { r < length ns.old }
    ensures { (result ≡ cond on (r + 1) r) × (ns.new ≡ cond on (set ns.old r x) ns.old) }
{
    if on {
        ns[r] = x;
        r + 1
    } else {
        r
    }
}

// The needs of the fields, at the beginning of ns: how many.
fn list_fields(ms: &[u64], ns: &mut [u64]) -> usize
    requires { (length ms.now ≤ 240) × (8 ≤ length ns.old) }
    ensures { SoFar ms.now ns.new 8 0 result }
{
    let a = ex_fields(ms);
    let n = ms.len();
    let mut r = 0;
    for f in 0..8 {
        r = push_if(ns, r, field_need(n, f), has_mode(a, f));
    }
    r
}

// Those of the members, behind the first r: how many there are then.
fn list_members(ms: &[u64], ns: &mut [u64], r: usize) -> usize
    requires ms_len_bound { (length ms.now ≤ 240) × (length ms.now + 8 ≤ length ns.old) }
    requires so_far { SoFar ms.now ns.old 8 0 r }
    ensures { SoFar ms.now ns.new 8 (length ms.now) result }
{
    let mut s = r;
    for (i, &x) in ms.iter().enumerate() {
        s = push_if(ns, s, need_of(x, i), asks(x));
    }
    s
}

// The needs, at the beginning of ns: how many.
pub fn list_needs(ms: &[u64], ns: &mut [u64]) -> usize
    requires { (length ms.now ≤ 240) × (length ms.now + 8 ≤ length ns.old) }
    ensures { (result ≤ length ns.new) × Listed ms.now (take result ns.new) }
{
    let r = list_fields(ms, ns);
    list_members(ms, ns, r)
}
