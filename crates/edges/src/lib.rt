// What a store says of the nodes of a snapshot: the symbols on them, and where the modes of a set lead. Assumes nothing.
#![tactic(auto)]

pub mod nodes;

ghost use Rattle.std.specs.Prelude.{◌≡◌, ◌+◌, ◌*◌, ◌≤◌, ◌<◌, length};
ghost use Rattle.wordset.specs.Words.{filled};
ghost use Rattle.snapshot_text.specs.Store.{entry_at};
ghost use Rattle.edges.specs.Nodes.{by_mode, field_leads, leads_at, next_word, on_word};

use crate::nodes::add_if;
use members::parts::has_mode;

// The entry of symbol k at node i. A member's word may hold any number as a symbol; the store has room for 8.
fn entry(out: &[u8], i: usize, k: usize) -> usize
    requires { i * 8 + 8 ≤ length out.now }
    ensures { result ≡ entry_at out.now i k }
{
    if k < 8 {
        usize::from(out[i * 8 + k])
    } else {
        0
    }
}

// The nodes that symbol k is on.
pub fn on(out: &[u8], n: usize, k: usize) -> u64
    requires { (n ≤ 16) × (n * 8 ≤ length out.now) }
    ensures { result ≡ on_word out.now n k }
{
    let mut x = 0;
    for i in 0..n {
        x = add_if(x, i, entry(out, i, k) == 1);
    }
    x
}

// Whether mode m is among the modes, and field f leads from i to j.
fn leads_by(out: &[u8], modes: u64, m: usize, f: usize, i: usize, j: usize) -> bool
    requires { (m < 16) × ((i * 8 + 8 ≤ length out.now) × (j < 16)) }
    ensures { result ≡ by_mode out.now modes m f i j }
{
    has_mode(modes, m) && entry(out, i, f) == j + 1
}

// Whether a mode over field f leads from i to j: forward, or backward from j's entry.
fn field_leads(out: &[u8], modes: u64, i: usize, j: usize, f: usize) -> bool
    requires { (f < 8) × ((i * 8 + 8 ≤ length out.now) × ((j * 8 + 8 ≤ length out.now) × ((i < 16) × (j < 16)))) }
    ensures { result ≡ field_leads out.now modes i j f }
{
    leads_by(out, modes, f, f, i, j) || leads_by(out, modes, f + 8, f, j, i)
}

// Whether one of the modes leads from i to j.
fn leads(out: &[u8], modes: u64, i: usize, j: usize) -> bool
    requires { (i * 8 + 8 ≤ length out.now) × ((j * 8 + 8 ≤ length out.now) × ((i < 16) × (j < 16))) }
    ensures { result ≡ leads_at out.now modes i j }
{
    (0..8).any(|f| field_leads(out, modes, i, j, f))
}

// The nodes to which the modes lead from i.
fn next(out: &[u8], n: usize, modes: u64, i: usize) -> u64
    requires { (n ≤ 16) × ((n * 8 ≤ length out.now) × (i < n)) }
    ensures { result ≡ next_word out.now n modes i }
{
    let mut x = 0;
    for j in 0..n {
        x = add_if(x, j, leads(out, modes, i, j));
    }
    x
}

// The same for each node, so that the rounds of a fixpoint need not read the store.
pub fn edge_words(out: &[u8], n: usize, modes: u64, e: &mut [u64])
    requires { (n ≤ 16) × ((n * 8 ≤ length out.now) × (n ≤ length e.old)) }
    ensures { e.new ≡ filled n (next_word out.now n modes) e.old }
{
    for i in 0..n {
        e[i] = next(out, n, modes, i);
    }
}
