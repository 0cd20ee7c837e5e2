// The operators with modes on sets of nodes. Throughout, e holds for each of the n nodes the nodes that its modes lead to. Assumes nothing.
ghost use Rattle.std.specs.Prelude.{◌≡◌, ◌≤◌, length};
ghost use Rattle.evaluator.specs.Values.{au_word, eu_word, modal_word, pre_word};

use edges::nodes::{add_if, flip, full};

// The nodes from which some mode leads to a node of x.
fn pre(e: &[u64], n: usize, x: u64) -> u64
    requires { (n ≤ 16) × (n ≤ length e.now) }
    ensures { result ≡ pre_word e.now n x }
{
    let mut y = 0;
    for i in 0..n {
        y = add_if(y, i, e[i] & x != 0);
    }
    y
}

// E(pUq): n rounds are enough, for each but the last adds a node.
#[tactic(auto, unfolding(crate::specs::Values::eu_word))]
fn until_some(e: &[u64], n: usize, p: u64, q: u64) -> u64
    requires { (n ≤ 16) × (n ≤ length e.now) }
    ensures { result ≡ eu_word e.now n p q }
{
    let mut x = 0;
    for _ in 0..n {
        x = q | (p & pre(e, n, x));
    }
    x
}

// A(pUq), likewise. A node that leads nowhere has it by q alone.
#[tactic(auto, unfolding(crate::specs::Values::au_word))]
fn until_all(e: &[u64], n: usize, p: u64, q: u64) -> u64
    requires { (n ≤ 16) × (n ≤ length e.now) }
    ensures { result ≡ au_word e.now n p q }
{
    let some = pre(e, n, full(n));
    let mut x = 0;
    for _ in 0..n {
        x = q | (p & (some & flip(n, pre(e, n, flip(n, x)))));
    }
    x
}

// A member with modes, from its tag and its operands' nodes; ER and AR are the opposites of AU and EU of the opposites.
#[tactic(auto, unfolding(crate::specs::Values::modal_word))]
pub fn modal(e: &[u64], n: usize, tag: u64, p: u64, q: u64) -> u64
    requires { (n ≤ 16) × (n ≤ length e.now) }
    ensures { result ≡ modal_word e.now n tag p q }
{
    match tag {
        6 => pre(e, n, p),
        7 => flip(n, pre(e, n, flip(n, p))),
        8 => until_some(e, n, p, q),
        9 => until_all(e, n, p, q),
        10 => flip(n, until_all(e, n, flip(n, p), flip(n, q))),
        _ => flip(n, until_some(e, n, flip(n, p), flip(n, q))),
    }
}
