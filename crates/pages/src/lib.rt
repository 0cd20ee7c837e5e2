// The lines of a sheet's namings, a page at a time: as many as fit into a buffer. Assumes nothing.
#![tactic(auto)]

ghost use Rattle.std.specs.Prelude.{◌≡◌, ◌+◌, ◌≤◌, ◌<◌, length};
ghost use Rattle.tableau.specs.Sheets.{Prepared};
ghost use Rattle.judge.specs.Judged.{Judged, Placed, goals_of};
ghost use Rattle.pages.specs.Later.{later_of};
ghost use Rattle.pages.specs.Pages.{Paged, row_of};

use judge::Verdict;
use naming::Naming;
use tableau::words::Sheet;

// The verdict on namings 0 to r, from that on those before r and what was found for r.
#[tactic(auto, unfolding(crate::specs::Later::later_of))]
fn later(v: Verdict, r: u64, found: Option<usize>) -> Verdict
    ensures { result ≡ later_of v r found }
{
    match (v, found) {
        (Verdict::Unsatisfiable, Some(least)) => Verdict::Open { naming: r, least },
        _ => v,
    }
}

// The naming in hand after a page, how many bytes of the buffer are used, and the verdict on the namings before the one in hand.
#[derive(Clone, Copy)]
pub struct Page {
    pub naming: Naming,
    pub used: usize,
    pub verdict: Verdict,
}

// Puts the lines of the namings from `start` on behind the `used` bytes that the buffer holds, as many as fit, and leaves room for the last two lines. `before` is the verdict
// on the namings before `start`.
pub fn fill_page(
    sheet: &Sheet<'_>,
    goal: usize,
    start: Naming,
    before: Verdict,
    out: &mut [u8],
    used: usize,
    newline: &[u8],
) -> Page
    requires ready { Prepared sheet.now }
    requires places { Placed sheet.now × ((sheet.now.words.w ≤ 64) × (goal < length sheet.now.ms.now)) }
    requires judged { Judged (goals_of sheet.now goal) start.number before }
    requires number_le_count { (start.number ≤ start.count) × ((used + 256 ≤ length out.old) × (length newline.now ≤ 16)) }
    ensures { Paged (row_of sheet.now newline.now) (goals_of sheet.now goal) start used out.old out.new result }
{
    let mut first = [0u64; 64];
    let mut second = [0u64; 64];
    let mut v = before;
    let mut k = used;
    let mut n = start;
    // By hand: the naming in hand moves on by `naming::advanced`, a rule of the project.
    while n.number < n.count {
        let r = n.number;
        let c = judge::fill_table(sheet, r, &mut first, &mut second);
        k = lines::put_naming(out, k, r, c, newline);
        let found = goal::goal_type(
            sheet.ms,
            sheet.ln,
            sheet.words.w,
            sheet.words.tw,
            goal,
            &first,
        );
        v = later(v, r, found);
        n = naming::advanced(n);
        if out.len() - k < 256 {
            return Page {
                naming: n,
                used: k,
                verdict: v,
            };
        }
    }
    Page {
        naming: n,
        used: k,
        verdict: v,
    }
}
