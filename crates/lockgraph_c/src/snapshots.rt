// Snapshot for C and Rust: at which nodes of a given snapshot the goal and the globals hold. Assumes nothing.
ghost use Rattle.limits.specs.Limits.{usual};
ghost use Rattle.lockgraph_c.specs.Told.{SnapshotTold};

use lockgraph::Limits;

// At which nodes of a snapshot the goal and the globals hold, as a byte of the row for each. Through `out`: how many nodes there are.
#[unsafe(no_mangle)]
pub extern "C" fn lockgraph_snapshot_within(
    lean: usize,
    closure: usize,
    sheet: &[u8],
    text: &[u8],
    row: &mut [u8],
    out: &mut [u64; 1],
) -> u8
    ensures { SnapshotTold (record { lean = lean; closure = closure }) sheet.now text.now row.old out.old result row.new out.new }
{
    let l = Limits { lean, closure };
    match lockgraph::snapshot_within(l, sheet, text, row) {
        Err(e) => e.number(),
        Ok(nodes) => {
            *out = [nodes as u64];
            0
        }
    }
}

// The same without limits.
#[unsafe(no_mangle)]
pub extern "C" fn lockgraph_snapshot(
    sheet: &[u8],
    text: &[u8],
    row: &mut [u8],
    out: &mut [u64; 1],
) -> u8
    ensures { SnapshotTold usual sheet.now text.now row.old out.old result row.new out.new }
{
    let l = lockgraph::usual_limits();
    lockgraph_snapshot_within(l.lean, l.closure, sheet, text, row, out)
}
