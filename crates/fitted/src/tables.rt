// The surviving types under one naming, in two lent stores. Assumes nothing.
ghost use Rattle.std.specs.Prelude.{◌≡◌, ◌≤◌, length};
ghost use Rattle.frame.specs.Framed.{Sizes};
ghost use Rattle.frame.specs.SetUp.{Accepts};
ghost use Rattle.fitted.specs.Accepted.{TabledIn};

use frame::Setup;
use tableau::table::Counts;

// The surviving types under a naming of a sheet that is not refused, in both stores. What depends on the sheet alone is computed once, in stores of these sizes.
fn table_with<const TW: usize, const CW: usize, const NS: usize, const BASE: usize>(
    sheet: &[u8],
    u: &Setup,
    naming: u64,
    first: &mut [u64],
    second: &mut [u64],
) -> Counts
    requires accepts { Accepts sheet.now u.now }
    requires words_in_bounds { (u.now.words ≤ length first.old) × (u.now.words ≤ length second.old) }
    requires sizes { Sizes u.now.count u.now.words TW CW NS BASE }
    requires sizes_bound { (TW ≤ 9280) × ((CW ≤ 4112) × ((NS ≤ 144) × (BASE ≤ 128))) }
    ensures { TabledIn sheet.now naming first.old second.old first.new second.new result }
{
    let mut tw = [0u64; TW];
    let mut cw = [0u64; CW];
    let mut ns = [0u64; NS];
    let mut base = [0u64; BASE];
    let tables = frame::sheet_in(u, &mut tw, &mut cw, &mut ns, &mut base);
    judge::fill_table(&tables, naming, first, second)
}

// The same for a sheet that is not small, in room of three sizes. It is a function of its own, since entering its large frame would cost a small sheet a third of its time
// (docs/DECISIONS.md, 111).
#[inline(never)]
fn larger_table(
    sheet: &[u8],
    u: &Setup,
    naming: u64,
    first: &mut [u64],
    second: &mut [u64],
) -> Counts
    requires accepts { Accepts sheet.now u.now }
    requires words_in_bounds { (u.now.words ≤ length first.old) × (u.now.words ≤ length second.old) }
    ensures { TabledIn sheet.now naming first.old second.old first.new second.new result }
{
    match u.words {
        0..=8 => table_with::<1160, 528, 144, 16>(sheet, u, naming, first, second),
        9..=16 => table_with::<2320, 1040, 144, 32>(sheet, u, naming, first, second),
        _ => table_with::<9280, 4112, 144, 128>(sheet, u, naming, first, second),
    }
}

// The same, in room that has the sheet's size.
pub fn fitted_table(
    sheet: &[u8],
    u: &Setup,
    naming: u64,
    first: &mut [u64],
    second: &mut [u64],
) -> Counts
    requires accepts { Accepts sheet.now u.now }
    requires words_in_bounds { (u.now.words ≤ length first.old) × (u.now.words ≤ length second.old) }
    ensures { TabledIn sheet.now naming first.old second.old first.new second.new result }
{
    if frame::is_small(u.count, u.words) {
        table_with::<324, 272, 80, 8>(sheet, u, naming, first, second)
    } else {
        larger_table(sheet, u, naming, first, second)
    }
}
