// One naming: its start types, the rounds, and the survivors. Assumes nothing.
ghost use Rattle.std.specs.Prelude.{◌+◌, ◌*◌, ◌^◌, ◌≤◌, length};
ghost use Rattle.start.specs.Starts.{Named};
ghost use Rattle.tableau.specs.Sheets.{Prepared, rounds_of, starts_of, survivors_of};
ghost use Rattle.tableau.specs.Tabled.{Tabled};

use crate::eliminate::settle;
use crate::words::Sheet;
use start::start_words;

// How many start types a naming has, how many types survive, and after how many rounds.
#[derive(Clone, Copy)]
pub struct Counts {
    pub start: usize,
    pub left: usize,
    pub rounds: usize,
}

// Naming r: both stores then hold its surviving types.
pub fn table(
    sheet: &Sheet<'_>,
    r: u64,
    first: &mut [u64],
    second: &mut [u64],
    copy: &mut [u64],
    todo: &mut [u64],
    v: &mut [u64],
    rest: &mut [u64],
) -> Counts
    requires ready { Prepared sheet.now }
    requires w_in_bounds { (sheet.now.words.w ≤ length first.old) × (sheet.now.words.w ≤ length second.old) × (sheet.now.words.w ≤ length copy.old) × (sheet.now.words.w ≤ length todo.old) × (sheet.now.words.w ≤ length v.old) × (sheet.now.words.w ≤ length rest.old) }
    requires named { Named sheet.now.names.now (length sheet.now.ln.now) × ((2 ^ length sheet.now.ln.now ≤ sheet.now.words.w * 64) × (sheet.now.words.w + sheet.now.words.w ≤ length sheet.now.base.now)) }
    ensures { Tabled (starts_of sheet.now r) (survivors_of sheet.now r) (rounds_of sheet.now r) sheet.now.words.w first.old second.old first.new second.new result }
{
    let words = &sheet.words;
    start_words(sheet.names, sheet.ln.len(), r, words.w, sheet.base, first);
    let s = wordset::size(first, words.w);
    let n = settle(words, first, second, copy, todo, v, rest);
    let l = wordset::size(first, words.w);
    Counts {
        start: s,
        left: l,
        rounds: n,
    }
}
