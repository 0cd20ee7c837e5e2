// Verdict for C and Rust: whether the goal is open or unsatisfiable. Assumes nothing.
ghost use Rattle.limits.specs.Limits.{usual};
ghost use Rattle.lockgraph_c.specs.Told.{VerdictTold};

use lockgraph::{Limits, Verdict};

// Whether the goal is open or unsatisfiable. Through `out`: 1, the naming and the type where it is open; 2, 0, 0 where it is unsatisfiable.
#[unsafe(no_mangle)]
pub extern "C" fn lockgraph_verdict_within(
    lean: usize,
    closure: usize,
    sheet: &[u8],
    out: &mut [u64; 3],
) -> u8
    ensures { VerdictTold (record { lean = lean; closure = closure }) sheet.now out.old result out.new }
{
    let l = Limits { lean, closure };
    match lockgraph::verdict_within(l, sheet) {
        Err(e) => e.number(),
        Ok(Verdict::Open { naming, least }) => {
            *out = [1, naming, least as u64];
            0
        }
        Ok(Verdict::Unsatisfiable) => {
            *out = [2, 0, 0];
            0
        }
    }
}

// The same without limits.
#[unsafe(no_mangle)]
pub extern "C" fn lockgraph_verdict(sheet: &[u8], out: &mut [u64; 3]) -> u8
    ensures { VerdictTold usual sheet.now out.old result out.new }
{
    let l = lockgraph::usual_limits();
    lockgraph_verdict_within(l.lean, l.closure, sheet, out)
}
