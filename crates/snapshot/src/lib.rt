// A snapshot's text with its answer: its entries are read into a store (`snapshot_text`), and held against their limits. The kinds of the symbols, in line 1 order, are
// 1 for a mark, 2 for a name, 3 for a field and 4 for a value. Assumes nothing.
#![tactic(auto)]

mod entries;

ghost use Rattle.std.specs.Prelude.{◌≡◌, ◌*◌, ◌≤◌, length};
ghost use Rattle.snapshot_text.specs.Lines.{line_store};
ghost use Rattle.snapshot.specs.Read.{judged, read_snapshot, Few};

use refusal::Refusal;

// The answer on the node count, 0 for text that is no snapshot's, and the entries.
#[tactic(auto, unfolding(crate::specs::Read::judged))]
fn judge(kinds: &[u8], n: usize, out: &[u8]) -> Result<usize, Refusal>
    requires { (length kinds.now ≤ 8) × (n * 8 ≤ length out.now) }
    ensures { result ≡ judged kinds.now n out.now }
{
    if n == 0 {
        return Err(Refusal::Snapshot);
    }
    if !entries::all_fit(kinds, n, out) {
        return Err(Refusal::Entry);
    }
    if entries::some_twice(kinds, n, out) {
        return Err(Refusal::Twice);
    }
    if entries::some_not_one(kinds, n, out) {
        return Err(Refusal::Held);
    }
    Ok(n)
}

// The node count of the text s under line 1 and the kinds of its symbols, or why it is refused. The entries go to the store, which is as it was where s is too long or
// does not begin with line 1.
pub fn read(line: &[u8], kinds: &[u8], s: &[u8], out: &mut [u8]) -> Result<usize, Refusal>
    requires { (length kinds.now ≤ 8) × (128 ≤ length out.old) }
    ensures value { result ≡ read_snapshot line.now kinds.now s.now out.old }
    ensures out_after { out.new ≡ line_store line.now (length kinds.now) s.now out.old }
    ensures few { Few result }
{
    let n = snapshot_text::lines(line, kinds.len(), s, out);
    judge(kinds, n, out)
}
