// The row of a snapshot: at which nodes the goal and the globals hold. Every closure member is evaluated once, as a word of nodes. Throughout,
// out is the store of a snapshot with n nodes and ws the table of closure members. Assumes nothing.
#![tactic(auto)]

mod operators;
mod values;

ghost use Rattle.std.specs.Prelude.{◌≡◌, cond, ◌++◌, map, ℕ, ◌*◌, ◌≤◌, ◌<◌, drop, get_or, length};
ghost use Rattle.wordset.specs.Words.{filled};
ghost use Rattle.truth.specs.Tables.{Table, form};
ghost use Rattle.snapshot_text.specs.Store.{of_store};
ghost use Rattle.evaluator.specs.Values.{all_word, cell_by};
ghost use Rattle.evaluator.specs.Rows.{row_of};

use crate::values::evaluate;
use edges::nodes::{full, has, set_at};

// The nodes at which each of these members holds.
fn all_of(sets: &[u64], members: &[usize], n: usize) -> u64
    requires { n ≤ 16 }
    ensures { result ≡ all_word sets.now members.now n }
{
    let mut x = full(n);
    for &m in members {
        x &= set_at(sets, m);
    }
    x
}

// The byte of node i: 1 if it is in the goal's set, plus 2 if it is in the globals'.
fn cell(goal: u64, globals: u64, i: usize) -> u8
    requires { i < 64 }
    ensures { result ≡ cell_by goal globals i }
{
    u8::from(has(goal, i)) + 2 * u8::from(has(globals, i))
}

// The bytes of all nodes.
fn cells(goal: u64, globals: u64, n: usize, row: &mut [u8])
    requires { (n ≤ 16) × (n ≤ length row.old) }
    ensures { row.new ≡ filled n (cell_by goal globals) row.old }
{
    for i in 0..n {
        row[i] = cell(goal, globals, i);
    }
}

// The row of the snapshot with n nodes that a store holds: 1 where the goal holds, plus 2 where all globals do; later bytes stay.
pub fn fill_row(out: &[u8], n: usize, ws: &[u64], goal: usize, globals: &[usize], row: &mut [u8])
    requires n_bound { (n ≤ 16) × ((n * 8 ≤ length out.now) × ((length ws.now ≤ 136) × Table ws.now)) }
    requires n_in_bounds { (n ≤ length row.old) × ((goal < length ws.now) × ((k : ℕ) → k < length globals.now → get_or globals.now k 0 < length ws.now)) }
    ensures { row.new ≡ row_of (of_store n out.now) (form ws.now goal) (map (form ws.now) globals.now) ++ drop n row.old }
{
    let mut sets = [0u64; 136];
    evaluate(out, n, ws, &mut sets);
    let g = set_at(&sets, goal);
    let a = all_of(&sets, globals, n);
    cells(g, a, n, row);
}
