// The least type of a set in which a member, the goal, is true. Assumes nothing.
#![tactic(auto)]

ghost use Rattle.std.specs.Prelude.{◌≡◌, ◌≤◌, ◌<◌, length};
ghost use Rattle.ctl.specs.Lists.{keep};
ghost use Rattle.truth.specs.Truths.{Truths, true_at};
ghost use Rattle.truth.specs.Blocks.{list_of};
ghost use Rattle.goal.specs.Goals.{first_of};

// The least type of the first w words of ws in which member goal is true.
pub fn goal_type(
    ms: &[u64],
    ln: &[u8],
    w: usize,
    tw: &[u64],
    goal: usize,
    ws: &[u64],
) -> Option<usize>
    requires truths { Truths ms.now ln.now w tw.now }
    requires goal_in_bounds { (goal < length ms.now) × (w ≤ length ws.now) × (w ≤ 1024) }
    ensures { result ≡ first_of (keep (true_at ms.now ln.now goal) (list_of w ws.now)) }
{
    for k in 0..w {
        let x = ws[k] & tw[goal * w + k];
        if x != 0 {
            return Some(k * 64 + x.trailing_zeros() as usize);
        }
    }
    None
}
