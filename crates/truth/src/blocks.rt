// Steps on one block of words. A set of types is w words, block i of tw. Assumes nothing.
// Each loop is one line. A common loop over a closure serves two of them alone, since `expand_block` reads other blocks too, and is longer than both.
ghost use Rattle.std.specs.Prelude.{Bool, not, ℕ, ◌+◌, ◌*◌, ◌≤◌, ◌<◌, length};
ghost use Rattle.ctl.specs.Types.{in_type};
ghost use Rattle.wordset.specs.Answers.{Answers};
ghost use Rattle.truth.specs.Blocks.{BlockIs, Redone, added, expanded};

use crate::place_word;

// Block i becomes all types, or none.
pub fn fill_block(tw: &mut [u64], w: usize, i: usize, on: bool)
    requires { i * w + w ≤ length tw.old }
    ensures { Redone w i (λ t. on) tw.old tw.new }
{
    tw[i * w..i * w + w].fill(if on { u64::MAX } else { 0 });
}

// The types that have a place join word k of a set; where every is true, only they stay in it.
fn add_word(x: u64, place: usize, k: usize, every: bool) -> u64
    requires { place ≤ 60 }
    ensures { (P : ℕ → Bool) → Answers P k x → Answers (λ t. added every (P t) (in_type t place)) k result }
{
    let y = place_word(place, k);
    if every { x & y } else { x | y }
}

// The types that have a place join block i; where every is true, only they stay in it.
pub fn add_place(tw: &mut [u64], w: usize, i: usize, place: usize, every: bool)
    requires { (i * w + w ≤ length tw.old) × (place ≤ 60) }
    ensures { (P : ℕ → Bool) → BlockIs P w i tw.old → Redone w i (λ t. added every (P t) (in_type t place)) tw.old tw.new }
{
    for (k, x) in tw[i * w..i * w + w].iter_mut().enumerate() {
        *x = add_word(*x, place, k, every);
    }
}

// Block i becomes the types that were not in it.
pub fn turn_block(tw: &mut [u64], w: usize, i: usize)
    requires { i * w + w ≤ length tw.old }
    ensures { (P : ℕ → Bool) → BlockIs P w i tw.old → Redone w i (λ t. not (P t)) tw.old tw.new }
{
    for x in &mut tw[i * w..i * w + w] {
        *x = !*x;
    }
}

// The word of an until, of the words p and q of its operands and the word x of what it says of the next types; where until is false, that of a release.
fn expand_word(x: u64, p: u64, q: u64, until: bool) -> u64
    ensures { (X P Q : ℕ → Bool) (k : ℕ) → Answers X k x → Answers P k p → Answers Q k q → Answers (λ t. expanded until (X t) (P t) (Q t)) k result }
{
    if until { q | (p & x) } else { q & (p | x) }
}

// The same in block i, of the blocks l and r of the operands and of what block i was.
pub fn expand_block(tw: &mut [u64], w: usize, i: usize, l: usize, r: usize, until: bool)
    requires { (i * w + w ≤ length tw.old) × (l < i) × (r < i) }
    ensures { (X P Q : ℕ → Bool) → BlockIs X w i tw.old → BlockIs P w l tw.old → BlockIs Q w r tw.old → Redone w i (λ t. expanded until (X t) (P t) (Q t)) tw.old tw.new }
{
    for k in 0..w {
        let at = i * w + k;
        tw[at] = expand_word(tw[at], tw[l * w + k], tw[r * w + k], until);
    }
}
