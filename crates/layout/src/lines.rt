// The lines of a sheet: where each begins, and how many there are. Assumes nothing.
ghost use Rattle.std.specs.Prelude.{◌≡◌, ◌≤◌, length, drop};
ghost use Rattle.layout.specs.Layout.{lines, lines_from, NextLine};

use crate::text::end_of;

// The beginning of the line after the one that begins at `at`, or the end.
pub fn next_line(s: &[u8], at: usize) -> usize
    requires { at ≤ length s.now }
    ensures { NextLine s.now at result }
{
    let e = end_of(b'\n', s, at);
    if e < s.len() {
        return e + 1;
    }
    e
}

// How many lines a newline ends.
pub fn count_lines(s: &[u8]) -> usize
    ensures { result ≡ length (lines s.now) }
{
    s.iter().filter(|&&b| b == b'\n').count()
}

// The beginning of the third line.
pub fn third_line(s: &[u8]) -> usize
    ensures { (result ≤ length s.now) × (lines_from s.now result ≡ drop 2 (lines s.now)) }
{
    let second = next_line(s, 0);
    next_line(s, second)
}
