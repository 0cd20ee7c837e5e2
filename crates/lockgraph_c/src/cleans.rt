// Clean for C and Rust: the sheet written back in one way of typing, into a lent store. Assumes nothing.
ghost use Rattle.limits.specs.Limits.{usual};
ghost use Rattle.lockgraph_c.specs.Told.{CleanTold};

use lockgraph::Limits;

// The sheet written clean into a store. Through `out`: how many bytes it has.
#[unsafe(no_mangle)]
pub extern "C" fn lockgraph_clean_within(
    lean: usize,
    closure: usize,
    sheet: &[u8],
    store: &mut [u8],
    out: &mut [u64; 1],
) -> u8
    ensures { CleanTold (record { lean = lean; closure = closure }) sheet.now store.old out.old result store.new out.new }
{
    let l = Limits { lean, closure };
    match lockgraph::clean_within(l, sheet, store) {
        Err(e) => e.number(),
        Ok(long) => {
            *out = [long as u64];
            0
        }
    }
}

// The same without limits.
#[unsafe(no_mangle)]
pub extern "C" fn lockgraph_clean(sheet: &[u8], store: &mut [u8], out: &mut [u64; 1]) -> u8
    ensures { CleanTold usual sheet.now store.old out.old result store.new out.new }
{
    let l = lockgraph::usual_limits();
    lockgraph_clean_within(l.lean, l.closure, sheet, store, out)
}
