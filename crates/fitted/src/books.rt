// The surviving types under every naming, in one lent store. Assumes nothing.
ghost use Rattle.std.specs.Prelude.{◌≡◌, ◌*◌, ◌≤◌, length};
ghost use Rattle.frame.specs.Framed.{Sizes};
ghost use Rattle.frame.specs.SetUp.{Accepts};
ghost use Rattle.fitted.specs.Accepted.{book_in};

use frame::Setup;

// The surviving types under every naming of a sheet that is not refused, one after the other in a store. What depends on the sheet alone is computed once, in stores of these sizes.
fn book_with<const TW: usize, const CW: usize, const NS: usize, const BASE: usize>(
    sheet: &[u8],
    u: &Setup,
    store: &mut [u64],
)
    requires accepts { Accepts sheet.now u.now }
    requires words_in_bounds { u.now.namings * u.now.words ≤ length store.old }
    requires sizes { Sizes u.now.count u.now.words TW CW NS BASE }
    requires sizes_bound { (TW ≤ 9280) × ((CW ≤ 4112) × ((NS ≤ 144) × (BASE ≤ 128))) }
    ensures { store.new ≡ book_in sheet.now store.old }
{
    let mut tw = [0u64; TW];
    let mut cw = [0u64; CW];
    let mut ns = [0u64; NS];
    let mut base = [0u64; BASE];
    let tables = frame::sheet_in(u, &mut tw, &mut cw, &mut ns, &mut base);
    booking::fill_book(&tables, u.namings, store)
}

// The same for a sheet that is not small, in room of three sizes. It is a function of its own, since entering its large frame would cost a small sheet a third of its time
// (docs/DECISIONS.md, 111).
#[inline(never)]
fn larger_book(sheet: &[u8], u: &Setup, store: &mut [u64])
    requires accepts { Accepts sheet.now u.now }
    requires words_in_bounds { u.now.namings * u.now.words ≤ length store.old }
    ensures { store.new ≡ book_in sheet.now store.old }
{
    match u.words {
        0..=8 => book_with::<1160, 528, 144, 16>(sheet, u, store),
        9..=16 => book_with::<2320, 1040, 144, 32>(sheet, u, store),
        _ => book_with::<9280, 4112, 144, 128>(sheet, u, store),
    }
}

// The same, in room that has the sheet's size.
pub fn fitted_book(sheet: &[u8], u: &Setup, store: &mut [u64])
    requires accepts { Accepts sheet.now u.now }
    requires words_in_bounds { u.now.namings * u.now.words ≤ length store.old }
    ensures { store.new ≡ book_in sheet.now store.old }
{
    if frame::is_small(u.count, u.words) {
        book_with::<324, 272, 80, 8>(sheet, u, store)
    } else {
        larger_book(sheet, u, store)
    }
}
