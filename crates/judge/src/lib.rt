// Judging: the namings in their order, until one has a surviving type with the goal. Assumes nothing.
#![tactic(auto)]

ghost use Rattle.std.specs.Prelude.{◌≡◌, ◌≤◌, ◌<◌, length};
ghost use Rattle.tableau.specs.Sheets.{Prepared, rounds_of, starts_of, survivors_of};
ghost use Rattle.tableau.specs.Tabled.{Tabled};
ghost use Rattle.judge.specs.Judged.{Judged, Placed, Room, goals_of};
ghost use Rattle.goal.specs.Goals.{first_of};

use goal::goal_type;
use start::start_words;
use tableau::eliminate::settle;
use tableau::table::{Counts, table};
use tableau::words::Sheet;

// What judging finds. It has names of its own, where an `Option` would do, for they say what a reader must know: under which naming the goal is open, with the least type
// there, or that it is unsatisfiable.
#[derive(Clone, Copy, Debug, PartialEq, Eq)]
pub enum Verdict {
    Open { naming: u64, least: usize },
    Unsatisfiable,
}

// `table` in room of N words that is local.
fn fill_in<const N: usize>(
    sheet: &Sheet<'_>,
    r: u64,
    first: &mut [u64],
    second: &mut [u64],
) -> Counts
    requires ready { Prepared sheet.now }
    requires room { (sheet.now.words.w ≤ N) × (N ≤ 64) }
    requires places { Placed sheet.now × ((sheet.now.words.w ≤ length first.old) × (sheet.now.words.w ≤ length second.old)) }
    ensures { Tabled (starts_of sheet.now r) (survivors_of sheet.now r) (rounds_of sheet.now r) sheet.now.words.w first.old second.old first.new second.new result }
{
    let mut copy = [0u64; N];
    let mut todo = [0u64; N];
    let mut v = [0u64; N];
    let mut rest = [0u64; N];
    table(
        sheet, r, first, second, &mut copy, &mut todo, &mut v, &mut rest,
    )
}

// Naming r: both stores then hold its surviving types. The room that its rounds work in has the sheet's size: a naming of a small sheet does not clear a large one's.
pub fn fill_table(sheet: &Sheet<'_>, r: u64, first: &mut [u64], second: &mut [u64]) -> Counts
    requires ready { Prepared sheet.now }
    requires places { Placed sheet.now × ((sheet.now.words.w ≤ 64) × ((sheet.now.words.w ≤ length first.old) × (sheet.now.words.w ≤ length second.old))) }
    ensures { Tabled (starts_of sheet.now r) (survivors_of sheet.now r) (rounds_of sheet.now r) sheet.now.words.w first.old second.old first.new second.new result }
{
    if sheet.words.w <= 4 {
        fill_in::<4>(sheet, r, first, second)
    } else {
        fill_in::<64>(sheet, r, first, second)
    }
}

// The least surviving type of naming r that has the goal: the work of `table` without its counts, then a search. The six stores are room to work in.
fn try_naming(
    sheet: &Sheet<'_>,
    goal: usize,
    r: u64,
    first: &mut [u64],
    second: &mut [u64],
    copy: &mut [u64],
    todo: &mut [u64],
    v: &mut [u64],
    rest: &mut [u64],
) -> Option<usize>
    requires ready { Prepared sheet.now }
    requires room { Room sheet.now.words.w first.old second.old copy.old todo.old v.old rest.old }
    requires places { Placed sheet.now × (goal < length sheet.now.ms.now) }
    ensures { result ≡ first_of (goals_of sheet.now goal r) }
{
    let words = &sheet.words;
    start_words(sheet.names, sheet.ln.len(), r, words.w, sheet.base, first);
    settle(words, first, second, copy, todo, v, rest);
    goal_type(sheet.ms, sheet.ln, words.w, words.tw, goal, first)
}

// The least naming under which a surviving type has the goal, with the least such type. The room to work in has N words.
fn judge_in<const N: usize>(sheet: &Sheet<'_>, goal: usize, namings: u64) -> Verdict
    requires ready { Prepared sheet.now }
    requires room { (sheet.now.words.w ≤ N) × (N ≤ 64) }
    requires places { Placed sheet.now × (goal < length sheet.now.ms.now) }
    ensures { Judged (goals_of sheet.now goal) namings result }
{
    let mut first = [0u64; N];
    let mut second = [0u64; N];
    let mut copy = [0u64; N];
    let mut todo = [0u64; N];
    let mut v = [0u64; N];
    let mut rest = [0u64; N];
    let mut n = naming::first(namings);
    // By hand: the naming in hand moves on by `naming::advanced`, a rule of the project.
    while n.number < n.count {
        let r = n.number;
        let found = try_naming(
            sheet,
            goal,
            r,
            &mut first,
            &mut second,
            &mut copy,
            &mut todo,
            &mut v,
            &mut rest,
        );
        if let Some(t) = found {
            return Verdict::Open {
                naming: r,
                least: t,
            };
        }
        n = naming::advanced(n);
    }
    Verdict::Unsatisfiable
}

// The same, in room that has the sheet's size.
pub fn judge(sheet: &Sheet<'_>, goal: usize, namings: u64) -> Verdict
    requires ready { Prepared sheet.now }
    requires places { Placed sheet.now × ((sheet.now.words.w ≤ 64) × (goal < length sheet.now.ms.now)) }
    ensures { Judged (goals_of sheet.now goal) namings result }
{
    if sheet.words.w <= 4 {
        judge_in::<4>(sheet, goal, namings)
    } else {
        judge_in::<64>(sheet, goal, namings)
    }
}
