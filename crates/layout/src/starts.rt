// The refusal 3: how each line starts, and how the sheet ends. Assumes nothing.
ghost use Rattle.std.specs.Prelude.{◌≡◌};
ghost use Rattle.layout.specs.Layout.{lines_from, starts_right, layout_right};

use crate::lines::{count_lines, third_line};
use crate::text::{begins_with, end_of};

// The lines from a line's beginning on start with `all `, the last one with `goal `.
pub fn starts_right(s: &[u8], from: usize) -> bool
    ensures { result ≡ starts_right (lines_from s.now from) }
{
    if s.len() <= from {
        return true;
    }
    let mut at = from;
    let mut e = end_of(b'\n', s, from);
    while e < s.len() {
        let after = end_of(b'\n', s, e + 1);
        if s.len() <= after {
            return begins_with(&s[at..e], b"goal ");
        }
        if !begins_with(&s[at..e], b"all ") {
            return false;
        }
        at = e + 1;
        e = after;
    }
    true
}

// 3: a final newline, 3 to 7 lines, and the line starts.
pub fn layout_right(s: &[u8]) -> bool
    ensures { result ≡ layout_right s.now }
{
    if !s.ends_with(b"\n") {
        return false;
    }
    let k = count_lines(s);
    if k < 3 {
        return false;
    }
    if 7 < k {
        return false;
    }
    starts_right(s, third_line(s))
}
