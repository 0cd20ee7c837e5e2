// What the program prints of a sheet: its refusal; or a line for each naming, then the verdict. No contract can speak of output, so the only function that writes asks for
// the right bytes, and a count of the lines that it was handed goes with each call, from 0 in `report` up to all that the text has. Assumes nothing.
#![tactic(auto)]

mod cleaned;
mod progress;

ghost use Rattle.std.specs.Prelude.{◌≡◌, ◌++◌, ◌≤◌, ◌<◌, length, take};
ghost use Rattle.limits.specs.Limits.{refusal_under};
ghost use Rattle.judge.specs.Judged.{Placed};
ghost use Rattle.tableau.specs.Sheets.{Prepared};
ghost use Rattle.frame.specs.Framed.{Sizes};
ghost use Rattle.frame.specs.SetUp.{Accepts};
ghost use Rattle.refusal.specs.Number.{number_of};
ghost use Rattle.report.specs.Jobs.{lines_in, refusal_in, PrintsIn};
ghost use Rattle.report.specs.Text.{lines_of, up_to};

pub use cleaned::report_clean;
use frame::Setup;
use judge::Verdict;
use limits::Limits;
use pages::fill_page;
use refusal::Refusal;
use std::io::{Stderr, Stdout};
use tableau::words::Sheet;

// What is printed, and where to: a sheet under limits, each line ended by `newline`, to the output; how far a long run is goes to standard error.
#[derive(Clone, Copy)]
struct Job<'a> {
    stdout: Stdout,
    stderr: Stderr,
    limits: Limits,
    sheet: &'a [u8],
    newline: &'a [u8],
}

// Hands the next lines of the sheet's text to the output: the first `done` lines, which it has, and these bytes are the first `next`. The limits, the sheet and the newline are
// there for the contract alone. If the output takes no more, the bytes are lost: there is nowhere else to report that.
fn write_lines(job: &Job<'_>, done: &mut u64, next: u64, bytes: &[u8])
    requires { up_to done.old (lines_in job.now) ++ bytes.now ≡ up_to next (lines_in job.now) }
    ensures { done.new ≡ next }
{
    progress::hide(job.stderr, *done);
    let _ = job.stdout.write_all(bytes);
    *done = next;
}

// Writes the lines of a sheet that is not refused, page after page. Line 0 is the heading, so naming r's line is line r + 1.
fn write_pages(
    job: &Job<'_>,
    done: &mut u64,
    sheet: &Sheet<'_>,
    goal: usize,
    namings: u64,
    out: &mut [u8],
)
    requires done_value { done.old ≡ 0 }
    requires prints { PrintsIn job.now sheet.now goal namings }
    requires ready { Prepared sheet.now }
    requires places { Placed sheet.now × ((sheet.now.words.w ≤ 64) × (goal < length sheet.now.ms.now)) }
    requires in_bounds { (512 ≤ length out.old) × (length job.now.newline.now ≤ 16) }
    ensures { done.new ≡ length (lines_in job.now) }
{
    let mut used = lines::put_heading(out, 0, job.newline);
    let mut n = naming::first(namings);
    let mut v = Verdict::Unsatisfiable;
    loop {
        let p = fill_page(sheet, goal, n, v, out, used, job.newline);
        n = p.naming;
        v = p.verdict;
        let next = n.number;
        let k = p.used;
        if namings <= next {
            let m = lines::put_verdict(out, k, v, job.newline);
            write_lines(job, done, namings + 3, &out[..m]);
            return;
        }
        write_lines(job, done, next + 1, &out[..k]);
        progress::show(job.stderr, next, namings);
        used = 0;
    }
}

// Writes the only line of a refused sheet.
fn refused(job: &Job<'_>, done: &mut u64, why: Refusal)
    requires done_value { done.old ≡ 0 }
    requires why_value { (number_of why ≡ refusal_in job.now) × (length job.now.newline.now ≤ 16) }
    ensures { done.new ≡ length (lines_in job.now) }
{
    let mut out = [0u8; 128];
    let n = lines::put_refused(&mut out, 0, why.number(), job.newline);
    write_lines(job, done, 1, &out[..n]);
}

// Writes the lines of a sheet that is not refused. What depends on the sheet alone is computed once, before the first naming, in stores of these sizes.
fn accepted_with<const TW: usize, const CW: usize, const NS: usize, const BASE: usize>(
    job: &Job<'_>,
    done: &mut u64,
    u: &Setup,
)
    requires done_value { done.old ≡ 0 }
    requires accepts { Accepts job.now.sheet.now u.now × ((refusal_in job.now ≡ 0) × (length job.now.newline.now ≤ 16)) }
    requires sizes { Sizes u.now.count u.now.words TW CW NS BASE }
    requires sizes_bound { (TW ≤ 9280) × ((CW ≤ 4112) × ((NS ≤ 144) × (BASE ≤ 128))) }
    ensures { done.new ≡ length (lines_in job.now) }
{
    let mut tw = [0u64; TW];
    let mut cw = [0u64; CW];
    let mut ns = [0u64; NS];
    let mut base = [0u64; BASE];
    let tables = frame::sheet_in(u, &mut tw, &mut cw, &mut ns, &mut base);
    let mut out = [0u8; 8192];
    write_pages(job, done, &tables, u.goal, u.namings, &mut out);
}

// The same, in room that has the sheet's size.
fn accepted(job: &Job<'_>, done: &mut u64, u: &Setup)
    requires done_value { done.old ≡ 0 }
    requires accepts { Accepts job.now.sheet.now u.now × ((refusal_in job.now ≡ 0) × (length job.now.newline.now ≤ 16)) }
    ensures { done.new ≡ length (lines_in job.now) }
{
    if frame::is_small(u.count, u.words) {
        accepted_with::<324, 272, 80, 8>(job, done, u)
    } else {
        accepted_with::<9280, 4112, 144, 128>(job, done, u)
    }
}

// What ends a line: at most 16 bytes.
fn ending(newline: &[u8]) -> &[u8]
    ensures { (result.now ≡ take 16 newline.now) × (length result.now ≤ 16) }
{
    if newline.len() <= 16 {
        return newline;
    }
    &newline[..16]
}

// Writes what the program prints of a sheet, each line ended by `newline`, or by the first 16 bytes of a longer one, and gives how many lines that is: all that the text has.
pub fn report(stdout: Stdout, stderr: Stderr, l: Limits, sheet: &[u8], newline: &[u8]) -> u64
    ensures { result ≡ length (lines_of l sheet.now (take 16 newline.now)) }
{
    let job = Job {
        stdout,
        stderr,
        limits: l,
        sheet,
        newline: ending(newline),
    };
    let mut done = 0u64;
    match frame::set_up(l, sheet) {
        Ok(u) => accepted(&job, &mut done, &u),
        Err(why) => refused(&job, &mut done, why),
    }
    done
}
