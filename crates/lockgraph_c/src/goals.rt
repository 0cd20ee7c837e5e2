// The goal's text for C and Rust: where in the sheet it lies. Assumes nothing.
ghost use Rattle.limits.specs.Limits.{usual};
ghost use Rattle.lockgraph_c.specs.Told.{GoalTold};

use lockgraph::Limits;

// The goal's text, a part of the sheet. Through `out`: where it begins, and how many bytes it has.
#[unsafe(no_mangle)]
pub extern "C" fn lockgraph_goal_within(
    lean: usize,
    closure: usize,
    sheet: &[u8],
    out: &mut [u64; 2],
) -> u8
    ensures { GoalTold (record { lean = lean; closure = closure }) sheet.now out.old result out.new }
{
    let l = Limits { lean, closure };
    if let Some(e) = lockgraph::refusal_within(l, sheet) {
        return e.number();
    }
    let goal = layout::last_text(sheet, layout::third_line(sheet));
    let start = goal.start;
    let long = goal.end - start;
    *out = [start as u64, long as u64];
    0
}

// The same without limits.
#[unsafe(no_mangle)]
pub extern "C" fn lockgraph_goal(sheet: &[u8], out: &mut [u64; 2]) -> u8
    ensures { GoalTold usual sheet.now out.old result out.new }
{
    let l = lockgraph::usual_limits();
    lockgraph_goal_within(l.lean, l.closure, sheet, out)
}
