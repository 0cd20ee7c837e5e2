// The lines that the program prints, each put into a buffer behind the bytes that it holds; the answer is how many it holds then. Assumes nothing.
#![tactic(auto)]

ghost use Rattle.std.specs.Prelude.{◌++◌, ◌+◌, ◌≤◌, length};
ghost use Rattle.judge.specs.Judged.{verdict_of};
ghost use Rattle.lines.specs.Lines.{decimal, spaced, heading_line, naming_line, verdict_heading, verdict_line, refused_line};
ghost use Rattle.lines.specs.Room.{Room};
ghost use Rattle.buffer.specs.Put.{Put};

use buffer::put;
use judge::Verdict;
use tableau::table::Counts;

// A number of 64 bits has at most 20 digits.
fn put_number(out: &mut [u8], n: usize, x: u64) -> usize
    requires { n + 20 ≤ length out.old }
    ensures put { Put n (decimal x) out.old out.new result }
    ensures upper_bound { result ≤ n + 20 }
{
    let mut digits = [0u8; 20];
    let k = io::decimal(x, &mut digits);
    put(out, n, &digits[..k])
}

// A number and a space.
fn put_spaced(out: &mut [u8], n: usize, x: u64) -> usize
    requires { n + 21 ≤ length out.old }
    ensures put { Put n (spaced x) out.old out.new result }
    ensures upper_bound { result ≤ n + 21 }
{
    let at = put_number(out, n, x);
    out[at] = 32;
    at + 1
}

pub fn put_heading(out: &mut [u8], n: usize, newline: &[u8]) -> usize
    requires { Room n out.old newline.now }
    ensures put { Put n (heading_line newline.now) out.old out.new result }
    ensures upper_bound { result ≤ n + 128 }
{
    let n = put(out, n, b"naming start left rounds");
    put(out, n, newline)
}

// A naming's number, its types at the start, those left, and the rounds.
pub fn put_naming(out: &mut [u8], n: usize, r: u64, c: Counts, newline: &[u8]) -> usize
    requires { Room n out.old newline.now }
    ensures put { Put n (naming_line r c.start c.left c.rounds newline.now) out.old out.new result }
    ensures upper_bound { result ≤ n + 128 }
{
    let n = put_spaced(out, n, r);
    let n = put_spaced(out, n, c.start as u64);
    let n = put_spaced(out, n, c.left as u64);
    let n = put_number(out, n, c.rounds as u64);
    put(out, n, newline)
}

// The last two lines.
pub fn put_verdict(out: &mut [u8], n: usize, v: Verdict, newline: &[u8]) -> usize
    requires { Room n out.old newline.now }
    ensures put { Put n (verdict_heading newline.now ++ verdict_line (verdict_of v) newline.now) out.old out.new result }
    ensures upper_bound { result ≤ n + 128 }
{
    let n = put(out, n, b"verdict naming type");
    let n = put(out, n, newline);
    if let Verdict::Open { naming, least } = v {
        let n = put(out, n, b"open ");
        let n = put_spaced(out, n, naming);
        let n = put_number(out, n, least as u64);
        return put(out, n, newline);
    }
    let n = put(out, n, b"unsatisfiable - -");
    put(out, n, newline)
}

// The only line of a refused sheet.
pub fn put_refused(out: &mut [u8], n: usize, k: u8, newline: &[u8]) -> usize
    requires { Room n out.old newline.now }
    ensures put { Put n (refused_line k newline.now) out.old out.new result }
    ensures upper_bound { result ≤ n + 128 }
{
    let n = put(out, n, b"refused ");
    let n = put_number(out, n, k as u64);
    put(out, n, newline)
}
