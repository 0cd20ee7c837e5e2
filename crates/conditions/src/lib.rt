// Links between types as conditions. What a closure member asks of a link is a condition that one type demands and the other refuses, and a lean place gives at most two:
// its own, and that of an AU both ways below an AX. So there is a place for each among the words, and no count of them. Conditions that no type demands or no type
// refuses are left out. Assumes nothing.
#![tactic(auto)]

ghost use Rattle.std.specs.Prelude.{◌≡◌, true, false, ℕ, ◌+◌, ◌*◌, ◌/◌, ◌%◌, ◌≤◌, ◌<◌, length, get_or};
ghost use Rattle.wordset.specs.Answers.{Answers};
ghost use Rattle.wordset.specs.Word.{bit};
ghost use Rattle.truth.specs.Blocks.{has};
ghost use Rattle.truth.specs.Tables.{Leans, Table};
ghost use Rattle.truth.specs.Truths.{Truths};
ghost use Rattle.conditions.specs.Entries.{in_some, side};
ghost use Rattle.conditions.specs.Conditions.{Below, Conditions, OfPlace, Own, Placed, reverse, selects};
ghost use Rattle.conditions.specs.Putting.{Put, Sided, Summed, Turned};

use members::parts::{arg, has_mode, left, mode_of, right, tag};

// How a condition is demanded: by the types in which the member is true, of those with its body; by the types without its body, of those in which it is false; or by the
// types in which it is true without its right operand, of those that are not like them.
#[derive(Clone, Copy)]
pub enum Rule {
    Forward,
    Backward,
    BothWays,
}

// A condition of links along a field, by its rule, a member, and its body or right operand.
#[derive(Clone, Copy)]
pub struct Condition {
    pub field: usize,
    pub rule: Rule,
    pub whole: usize,
    pub part: usize,
}

// The condition that member j makes, if it is an EX over a field or an AX over one mode.
fn own(ms: &[u64], j: usize) -> Option<Condition>
    requires { Table ms.now × (j < length ms.now) }
    ensures { Own ms.now j result }
{
    let x = ms[j];
    let m = mode_of(arg(x));
    match tag(x) {
        6 | 7 if m < 8 => Some(Condition {
            field: m,
            rule: Rule::Forward,
            whole: j,
            part: left(x),
        }),
        7 if m < 16 => Some(Condition {
            field: m - 8,
            rule: Rule::Backward,
            whole: j,
            part: left(x),
        }),
        _ => None,
    }
}

// The condition that the body of member j makes, if j is AX over a field and the body an AU along that field both ways.
fn below(ms: &[u64], j: usize) -> Option<Condition>
    requires { Table ms.now × (j < length ms.now) }
    ensures { Below ms.now j result }
{
    let x = ms[j];
    if tag(x) != 7 {
        return None;
    }
    let m = mode_of(arg(x));
    if m >= 8 {
        return None;
    }
    let i = left(x);
    let y = ms[i];
    if tag(y) != 9 {
        return None;
    }
    let a = arg(y);
    if !has_mode(a, m) || !has_mode(a, m + 8) {
        return None;
    }
    Some(Condition {
        field: m,
        rule: Rule::BothWays,
        whole: i,
        part: right(y),
    })
}

// Condition c, if there is one: lean place k has 2k for its own, and 2k + 1 for that of its body.
fn condition_at(ms: &[u64], ln: &[u8], c: usize) -> Option<Condition>
    requires { Table ms.now × (Leans ms.now ln.now × (c < length ln.now * 2)) }
    ensures { OfPlace ms.now ln.now c result }
{
    let j = ln[c / 2] as usize;
    if c % 2 == 0 { own(ms, j) } else { below(ms, j) }
}

// Answers k of the types that demand by a rule, with the member of block i and the body or right operand of block p.
fn selected(tw: &[u64], w: usize, rule: Rule, i: usize, p: usize, k: usize) -> u64
    requires { (i * w + w ≤ length tw.now) × (p * w + w ≤ length tw.now) × (k < w) }
    ensures { Answers (λ t. selects rule (has w tw.now i t) (has w tw.now p t)) k result }
{
    match rule {
        Rule::Forward => tw[i * w + k],
        Rule::Backward => !tw[p * w + k],
        Rule::BothWays => tw[i * w + k] & !tw[p * w + k],
    }
}

// The same rule, from the other end of a link: the types that demand by it refuse by the rule.
fn reversed(rule: Rule) -> Rule
    ensures { result ≡ reverse rule }
{
    match rule {
        Rule::Forward => Rule::Backward,
        Rule::Backward => Rule::Forward,
        Rule::BothWays => Rule::BothWays,
    }
}

// Entry c becomes the types that demand by a rule: whether there are any.
fn put_entry(tw: &[u64], w: usize, rule: Rule, i: usize, p: usize, cw: &mut [u64], c: usize) -> bool
    requires { (i * w + w ≤ length tw.now) × (p * w + w ≤ length tw.now) × (w * 64 + 16 ≤ length cw.old) × (w ≤ 1024) × (c < 64) }
    ensures put { Put (λ t. selects rule (has w tw.now i t) (has w tw.now p t)) w c cw.old cw.new }
    ensures t_after { result ≡ false → (t : ℕ) → t < w * 64 → has w cw.new c t ≡ false }
{
    let mut any: u64 = 0;
    for k in 0..w {
        let x = selected(tw, w, rule, i, p, k);
        cw[c * w + k] = x;
        any |= x;
    }
    any != 0
}

// Condition c joins the conditions of its field, with the types that refuse it and those that demand it, unless there are none of either.
fn put_condition(ms: &[u64], ln: &[u8], tw: &[u64], w: usize, cw: &mut [u64], c: usize)
    requires table { Table ms.now × (Leans ms.now ln.now × (c < length ln.now * 2)) }
    requires truths { Truths ms.now ln.now w tw.now × ((w * 64 + 16 ≤ length cw.old) × ((w ≤ 1024) × (c < 24))) }
    ensures { Sided ms.now ln.now w cw.old c → Sided ms.now ln.now w cw.new (c + 1) }
{
    let Some(d) = condition_at(ms, ln, c) else {
        return;
    };
    if !put_entry(tw, w, reversed(d.rule), d.whole, d.part, cw, c) {
        return;
    }
    if !put_entry(tw, w, d.rule, d.whole, d.part, cw, c + 32) {
        return;
    }
    cw[w * 64 + d.field] |= 1 << c;
}

// The fields have no conditions yet.
fn clear_sides(cw: &mut [u64], w: usize)
    requires { (w * 64 + 16 ≤ length cw.old) × (w ≤ 1024) }
    ensures { (m : ℕ) → m < 8 → get_or cw.new (w * 64 + m) 0 ≡ 0 }
{
    cw[w * 64..w * 64 + 8].fill(0);
}

// The conditions of all lean places.
fn put_conditions(ms: &[u64], ln: &[u8], tw: &[u64], w: usize, cw: &mut [u64])
    requires table { Table ms.now × (Leans ms.now ln.now × (length ln.now ≤ 12)) }
    requires truths { Truths ms.now ln.now w tw.now × ((w * 64 + 16 ≤ length cw.old) × (w ≤ 1024)) }
    ensures { Sided ms.now ln.now w cw.new (length ln.now * 2) }
{
    clear_sides(cw, w);
    for c in 0..ln.len() * 2 {
        put_condition(ms, ln, tw, w, cw, c);
    }
}

// Along a backward mode a type refuses where it demands along the field: the entries are those of the field, moved by 32.
fn turn_sides(cw: &mut [u64], w: usize)
    requires { (w * 64 + 16 ≤ length cw.old) × (w ≤ 1024) }
    ensures { Turned w cw.old cw.new }
{
    for f in 0..8 {
        cw[w * 64 + 8 + f] = cw[w * 64 + f] << 32;
    }
}

// Answers k of the types that are in one of the entries r.
pub fn some_word(cw: &[u64], w: usize, r: u64, k: usize) -> u64
    requires { (w * 64 ≤ length cw.now) × (k < w) }
    ensures { Answers (in_some w cw.now r) k result }
{
    let mut acc: u64 = 0;
    let mut rest = r;
    while rest != 0 {
        let c = rest.trailing_zeros() as usize;
        acc |= cw[c * w + k];
        rest &= rest - 1;
    }
    acc
}

// Entry e becomes the types that are in one of the entries a.
fn put_sum(cw: &mut [u64], w: usize, a: u64, e: usize)
    requires { (w * 64 + 16 ≤ length cw.old) × (w ≤ 1024) × (e < 64) }
    ensures { Put (in_some w cw.old a) w e cw.old cw.new }
{
    for k in 0..w {
        cw[e * w + k] = some_word(cw, w, a, k);
    }
}

// For each mode the types that refuse something along it, in an entry of their own.
fn put_sums(cw: &mut [u64], w: usize)
    requires w_in_bounds { (w * 64 + 16 ≤ length cw.old) × (w ≤ 1024) }
    requires by_index { (m c : ℕ) → m < 16 → bit (side w cw.old m) c ≡ true → c % 32 < 24 }
    ensures { Summed w cw.old cw.new 16 }
{
    for m in 0..16 {
        let a = cw[w * 64 + m];
        put_sum(cw, w, a, 24 + m % 8 + m / 8 * 32);
    }
}

// cw becomes the condition words of a table under a lean.
pub fn condition_words(ms: &[u64], ln: &[u8], tw: &[u64], w: usize, cw: &mut [u64])
    requires table { Table ms.now × (Leans ms.now ln.now × (Placed ms.now ln.now × (length ln.now ≤ 12))) }
    requires truths { Truths ms.now ln.now w tw.now × ((w * 64 + 16 ≤ length cw.old) × (w ≤ 1024)) }
    ensures { Conditions ms.now ln.now w cw.new }
{
    put_conditions(ms, ln, tw, w, cw);
    turn_sides(cw, w);
    put_sums(cw, w);
}
