// List for C and Rust: the surviving types under one naming, as numbers in a lent store. Assumes nothing.
ghost use Rattle.limits.specs.Limits.{usual};
ghost use Rattle.lockgraph_c.specs.Told.{ListTold};

use lockgraph::Limits;

// The surviving types under a naming as numbers. Through `out`: how many they are.
#[unsafe(no_mangle)]
pub extern "C" fn lockgraph_list_within(
    lean: usize,
    closure: usize,
    sheet: &[u8],
    naming: u64,
    store: &mut [u16],
    out: &mut [u64; 1],
) -> u8
    ensures { ListTold (record { lean = lean; closure = closure }) sheet.now naming store.old out.old result store.new out.new }
{
    let l = Limits { lean, closure };
    match lockgraph::list_within(l, sheet, naming, store) {
        Err(e) => e.number(),
        Ok(left) => {
            *out = [left as u64];
            0
        }
    }
}

// The same without limits.
#[unsafe(no_mangle)]
pub extern "C" fn lockgraph_list(
    sheet: &[u8],
    naming: u64,
    store: &mut [u16],
    out: &mut [u64; 1],
) -> u8
    ensures { ListTold usual sheet.now naming store.old out.old result store.new out.new }
{
    let l = lockgraph::usual_limits();
    lockgraph_list_within(l.lean, l.closure, sheet, naming, store, out)
}
