// The verdict on the goal. Assumes nothing.
ghost use Rattle.std.specs.Prelude.{◌≡◌, ◌≤◌};
ghost use Rattle.judge.specs.Judged as Judged;
ghost use Rattle.frame.specs.Framed.{Sizes};
ghost use Rattle.frame.specs.SetUp.{Accepts};
ghost use Rattle.fitted.specs.Accepted.{verdict_in};

use frame::Setup;
use judge::Verdict;

// The verdict on a sheet that is not refused. What depends on the sheet alone is computed once, in stores of these sizes.
fn verdict_with<const TW: usize, const CW: usize, const NS: usize, const BASE: usize>(
    sheet: &[u8],
    u: &Setup,
) -> Verdict
    requires accepts { Accepts sheet.now u.now }
    requires sizes { Sizes u.now.count u.now.words TW CW NS BASE }
    requires sizes_bound { (TW ≤ 9280) × ((CW ≤ 4112) × ((NS ≤ 144) × (BASE ≤ 128))) }
    ensures { verdict_in sheet.now ≡ Judged.verdict_of result }
{
    let mut tw = [0u64; TW];
    let mut cw = [0u64; CW];
    let mut ns = [0u64; NS];
    let mut base = [0u64; BASE];
    let tables = frame::sheet_in(u, &mut tw, &mut cw, &mut ns, &mut base);
    judge::judge(&tables, u.goal, u.namings)
}

// The same for a sheet that is not small, in room of three sizes. It is a function of its own, since entering its large frame would cost a small sheet a third of its time
// (docs/DECISIONS.md, 111).
#[inline(never)]
fn larger_verdict(sheet: &[u8], u: &Setup) -> Verdict
    requires accepts { Accepts sheet.now u.now }
    ensures { verdict_in sheet.now ≡ Judged.verdict_of result }
{
    match u.words {
        0..=8 => verdict_with::<1160, 528, 144, 16>(sheet, u),
        9..=16 => verdict_with::<2320, 1040, 144, 32>(sheet, u),
        _ => verdict_with::<9280, 4112, 144, 128>(sheet, u),
    }
}

// The same, in room that has the sheet's size.
pub fn fitted_verdict(sheet: &[u8], u: &Setup) -> Verdict
    requires accepts { Accepts sheet.now u.now }
    ensures { verdict_in sheet.now ≡ Judged.verdict_of result }
{
    if frame::is_small(u.count, u.words) {
        verdict_with::<324, 272, 80, 8>(sheet, u)
    } else {
        larger_verdict(sheet, u)
    }
}
