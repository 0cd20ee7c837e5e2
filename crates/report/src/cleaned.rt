// What the program prints of a sheet that is to be cleaned: its refusal, or the clean sheet, in one write. As in `report`, the only function that writes asks for the right bytes.
// Assumes nothing.
ghost use Rattle.std.specs.Prelude.{◌≡◌};
ghost use Rattle.report.specs.Cleaned.{cleaned_of};

use limits::Limits;
use std::io::Stdout;

// Hands the whole text to the output, in one write. The limits and the sheet are there for the contract alone. If the output takes no more, the bytes are lost: there is nowhere
// else to report that.
fn write_text(stdout: Stdout, l: Limits, sheet: &[u8], bytes: &[u8]) -> u64
    requires { bytes.now ≡ cleaned_of l sheet.now }
    ensures { result ≡ 1 }
{
    let _ = stdout.write_all(bytes);
    1
}

// Writes the sheet clean, or why it is refused, and gives how many writes that took: one.
pub fn report_clean(stdout: Stdout, l: Limits, sheet: &[u8]) -> u64
    ensures { result ≡ 1 }
{
    let mut store = [0u8; 1024];
    match lockgraph::clean_within(l, sheet, &mut store) {
        Ok(length) => write_text(stdout, l, sheet, &store[..length]),
        Err(why) => {
            let mut out = [0u8; 144];
            let n = lines::put_refused(&mut out, 0, why.number(), b"\n");
            write_text(stdout, l, sheet, &out[..n])
        }
    }
}
