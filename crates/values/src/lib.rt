// The values that do not occur, in a table of members: each declared value that is not among the closure's members is put behind them, so that the lean has all values.
// A symbol's kind is 4 for a value. Assumes nothing.
#![tactic(auto)]

ghost use Rattle.std.specs.Prelude.{◌+◌, ◌≤◌, ◌<◌, length, [], eqb};
ghost use Rattle.ctl.specs.Lists.{put};
ghost use Rattle.ctl.specs.Formula.{lit};
ghost use Rattle.members.specs.Grown.{Ready};
ghost use Rattle.values.specs.Values.{value_forms, Extended};

use members::make;

// The members with symbol k, where its kind is that of a value.
fn with_value(tab: &mut [u64], n: usize, kind: u8, k: usize) -> usize
    requires { Ready tab.old n × ((n < length tab.old) × (k < 256)) }
    ensures { Extended (put (eqb kind 4) (lit k) []) tab.old n tab.new result }
{
    if kind != 4 {
        return n;
    }
    match make(tab, n, 2, k as u64, 0, 0) {
        Some(added) => added.count,
        None => n,
    }
}

// The members with all values; how many there are then.
pub fn with_values(kinds: &[u8], tab: &mut [u64], n: usize) -> usize
    requires { Ready tab.old n × (n + length kinds.now ≤ length tab.old) }
    ensures { Extended (value_forms kinds.now) tab.old n tab.new result }
{
    let mut m = n;
    for (k, &kind) in kinds.iter().enumerate() {
        m = with_value(tab, m, kind, k);
    }
    m
}
