// Snapshot: at which nodes of a given snapshot the goal and the globals hold. Assumes nothing.
ghost use Rattle.limits.specs.Limits.{usual};
ghost use Rattle.outcomes.specs.Outcomes.{SnapshotIs};
ghost use Rattle.outcomes.specs.Demands.{SnapshotMeans};

use limits::{Limits, usual_limits};
use refusal::Refusal;

// A byte of the row for each node: 1 if the goal holds there, plus 2 if all globals do. Gives the node count.
pub fn snapshot_within(
    l: Limits,
    sheet: &[u8],
    text: &[u8],
    row: &mut [u8],
) -> Result<usize, Refusal>
    ensures snapshot_is { SnapshotIs l sheet.now text.now row.old result row.new }
    ensures snapshot_means { SnapshotMeans l sheet.now text.now result row.new }
{
    let reading = limits::read(l, sheet)?;
    let kinds = reading.kinds;
    let mut entries = [0u8; 128];
    let e = layout::end_of(10, sheet, 0);
    let n = snapshot::read(&sheet[..e], &kinds[..reading.symbols], text, &mut entries)?;
    if row.len() < n {
        return Err(Refusal::Row);
    }
    let members = reading.members;
    let places = reading.places;
    let last = reading.formulas - 1;
    evaluator::fill_row(
        &entries,
        n,
        &members[..reading.count],
        places[last],
        &places[..last],
        row,
    );
    Ok(n)
}

// The same without limits.
pub fn snapshot(sheet: &[u8], text: &[u8], row: &mut [u8]) -> Result<usize, Refusal>
    ensures snapshot_is { SnapshotIs usual sheet.now text.now row.old result row.new }
    ensures snapshot_means { SnapshotMeans usual sheet.now text.now result row.new }
{
    snapshot_within(usual_limits(), sheet, text, row)
}
