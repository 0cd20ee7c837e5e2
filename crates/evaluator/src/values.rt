// The nodes at which each member of a table holds. Assumes nothing.
ghost use Rattle.std.specs.Prelude.{◌≡◌, ◌*◌, ◌≤◌, length};
ghost use Rattle.wordset.specs.Word.{word_of};
ghost use Rattle.wordset.specs.Words.{filled};
ghost use Rattle.ctl.specs.Evaluator.{sat};
ghost use Rattle.truth.specs.Tables.{Table, form};
ghost use Rattle.snapshot_text.specs.Store.{of_store};
ghost use Rattle.evaluator.specs.Values.{member_word, plain_word};

use crate::operators::modal;
use edges::nodes::{flip, full, set_at};
use edges::{edge_words, on};
use members::parts::{arg, left, right, tag};

// A member without modes, from its tag, its symbol k and its operands' nodes.
#[tactic(auto, unfolding(crate::specs::Values::plain_word))]
fn plain(out: &[u8], n: usize, tag: u64, k: usize, p: u64, q: u64) -> u64
    requires { (n ≤ 16) × (n * 8 ≤ length out.now) }
    ensures { result ≡ plain_word out.now n tag k p q }
{
    match tag {
        0 => full(n),
        1 => 0,
        2 => on(out, n, k),
        3 => flip(n, on(out, n, k)),
        4 => p & q,
        _ => p | q,
    }
}

// A member, from its word and its operands' nodes.
fn member(out: &[u8], n: usize, w: u64, p: u64, q: u64) -> u64
    requires { (n ≤ 16) × (n * 8 ≤ length out.now) }
    ensures { result ≡ member_word out.now n w p q }
{
    let t = tag(w);
    let a = arg(w);
    if t < 6 {
        return plain(out, n, t, a as usize, p, q);
    }
    let mut e = [0u64; 16];
    edge_words(out, n, a, &mut e);
    modal(&e, n, t, p, q)
}

// Each member of the table, in its order: operands come first, so their nodes are known.
pub fn evaluate(out: &[u8], n: usize, ws: &[u64], sets: &mut [u64])
    requires { ((n ≤ 16) × (n * 8 ≤ length out.now)) × ((length ws.now ≤ length sets.old) × Table ws.now) }
    ensures { sets.new ≡ filled (length ws.now) (λ k. word_of n (sat (of_store n out.now) (form ws.now k))) sets.old }
{
    for (i, &w) in ws.iter().enumerate() {
        let p = set_at(sets, left(w));
        let q = set_at(sets, right(w));
        sets[i] = member(out, n, w, p, q);
    }
}
