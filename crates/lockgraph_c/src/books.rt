// Book for C and Rust: the surviving types under every naming, in one lent store. Assumes nothing.
ghost use Rattle.limits.specs.Limits.{usual};
ghost use Rattle.lockgraph_c.specs.Told.{BookTold};

use lockgraph::Limits;

// The surviving types under every naming. Through `out`: how many namings there are, and how many words for each.
#[unsafe(no_mangle)]
pub extern "C" fn lockgraph_book_within(
    lean: usize,
    closure: usize,
    sheet: &[u8],
    store: &mut [u64],
    out: &mut [u64; 2],
) -> u8
    ensures { BookTold (record { lean = lean; closure = closure }) sheet.now store.old out.old result store.new out.new }
{
    let l = Limits { lean, closure };
    match lockgraph::book_within(l, sheet, store) {
        Err(e) => e.number(),
        Ok(b) => {
            *out = [b.namings, b.words as u64];
            0
        }
    }
}

// The same without limits.
#[unsafe(no_mangle)]
pub extern "C" fn lockgraph_book(sheet: &[u8], store: &mut [u64], out: &mut [u64; 2]) -> u8
    ensures { BookTold usual sheet.now store.old out.old result store.new out.new }
{
    let l = lockgraph::usual_limits();
    lockgraph_book_within(l.lean, l.closure, sheet, store, out)
}
