// Table for C and Rust: the surviving types under one naming, in two lent stores. Assumes nothing.
ghost use Rattle.std.specs.Prelude.{◌≡◌};
ghost use Rattle.limits.specs.Limits.{usual};
ghost use Rattle.lockgraph_c.specs.Told.{TableTold, written_last};

use lockgraph::Limits;

// Which store Table hands back: 1 for the first, 2 for the second.
fn written_last(rounds: usize) -> u64
    ensures { result ≡ written_last rounds }
{
    if rounds % 2 == 0 { 2 } else { 1 }
}

// The surviving types under a naming, in both stores. Through `out`: words, start, left, rounds, and the store that is handed back.
#[unsafe(no_mangle)]
pub extern "C" fn lockgraph_table_within(
    lean: usize,
    closure: usize,
    sheet: &[u8],
    naming: u64,
    first: &mut [u64],
    second: &mut [u64],
    out: &mut [u64; 5],
) -> u8
    ensures { TableTold (record { lean = lean; closure = closure }) sheet.now naming first.old second.old out.old result first.new second.new out.new }
{
    let l = Limits { lean, closure };
    match lockgraph::table_within(l, sheet, naming, first, second) {
        Err(e) => e.number(),
        Ok(t) => {
            let last = written_last(t.rounds);
            *out = [
                t.words as u64,
                t.start as u64,
                t.left as u64,
                t.rounds as u64,
                last,
            ];
            0
        }
    }
}

// The same without limits.
#[unsafe(no_mangle)]
pub extern "C" fn lockgraph_table(
    sheet: &[u8],
    naming: u64,
    first: &mut [u64],
    second: &mut [u64],
    out: &mut [u64; 5],
) -> u8
    ensures { TableTold usual sheet.now naming first.old second.old out.old result first.new second.new out.new }
{
    let l = lockgraph::usual_limits();
    lockgraph_table_within(l.lean, l.closure, sheet, naming, first, second, out)
}
