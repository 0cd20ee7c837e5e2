// The tables of all namings, one after the other in a store. Assumes nothing.
#![tactic(auto)]

ghost use Rattle.std.specs.Prelude.{◌≡◌, ◌++◌, ◌*◌, ◌≤◌, length, drop};
ghost use Rattle.ctl.specs.Lists.{elem};
ghost use Rattle.wordset.specs.Words.{packed};
ghost use Rattle.tableau.specs.Sheets.{Prepared, survivors_of};
ghost use Rattle.judge.specs.Judged.{Placed, Room};
ghost use Rattle.booking.specs.Booked.{tables_by};

use tableau::table::table;
use tableau::words::Sheet;

// Naming r's surviving types in the first w words of a store. The other stores are room to work in.
fn fill_one(
    sheet: &Sheet<'_>,
    r: u64,
    store: &mut [u64],
    other: &mut [u64],
    copy: &mut [u64],
    todo: &mut [u64],
    v: &mut [u64],
    rest: &mut [u64],
)
    requires ready { Prepared sheet.now }
    requires places { Placed sheet.now × Room sheet.now.words.w store.old other.old copy.old todo.old v.old rest.old }
    ensures { store.new ≡ packed sheet.now.words.w (λ t. elem t (survivors_of sheet.now r)) store.old }
{
    table(sheet, r, store, other, copy, todo, v, rest);
}

// The tables of namings 0 to n - 1, naming r's w words from word r * w on; the rest of the store is as it was.
// Each is written by lending on the part that begins at its place. The room that rounds work in is cleared once for a book, and has N words.
fn book_in<const N: usize>(sheet: &Sheet<'_>, namings: u64, store: &mut [u64])
    requires ready { Prepared sheet.now }
    requires room { (sheet.now.words.w ≤ N) × (N ≤ 64) }
    requires places { Placed sheet.now × (namings * sheet.now.words.w ≤ length store.old) }
    ensures { store.new ≡ tables_by sheet.now.words.w (λ r t. elem t (survivors_of sheet.now r)) namings ++ drop (namings * sheet.now.words.w) store.old }
{
    let mut other = [0u64; N];
    let mut copy = [0u64; N];
    let mut todo = [0u64; N];
    let mut v = [0u64; N];
    let mut rest = [0u64; N];
    let mut n = naming::first(namings);
    // By hand: the naming in hand moves on by `naming::advanced`, a rule of the project.
    while n.number < n.count {
        let r = n.number;
        let at = r as usize * sheet.words.w;
        fill_one(
            sheet,
            r,
            &mut store[at..],
            &mut other,
            &mut copy,
            &mut todo,
            &mut v,
            &mut rest,
        );
        n = naming::advanced(n);
    }
}

// The same, in room that has the sheet's size.
pub fn fill_book(sheet: &Sheet<'_>, namings: u64, store: &mut [u64])
    requires ready { Prepared sheet.now }
    requires places { Placed sheet.now × ((sheet.now.words.w ≤ 64) × (namings * sheet.now.words.w ≤ length store.old)) }
    ensures { store.new ≡ tables_by sheet.now.words.w (λ r t. elem t (survivors_of sheet.now r)) namings ++ drop (namings * sheet.now.words.w) store.old }
{
    if sheet.words.w <= 4 {
        book_in::<4>(sheet, namings, store)
    } else {
        book_in::<64>(sheet, namings, store)
    }
}
