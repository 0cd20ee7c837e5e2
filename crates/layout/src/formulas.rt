// Where the texts of the formulas lie. Assumes nothing.
ghost use Rattle.std.specs.Prelude.{◌≡◌, ◌≤◌, ◌<◌, length};
ghost use Rattle.layout.specs.Text.{end_of};
ghost use Rattle.layout.specs.Layout.{TextAt, LastText};

use crate::text::end_of;

// Where the text of the formula on the line from `at` to `e` begins: after `goal ` on the last line, after `all ` on another; the line's end
// where it is too short.
pub fn text_at(s: &[u8], at: usize, e: usize) -> usize
    requires { (at ≤ e) × ((e < length s.now) × (e ≡ end_of 10 s.now at)) }
    ensures { TextAt s.now at e result }
{
    let after = end_of(b'\n', s, e + 1);
    if s.len() <= after {
        if e - at < 5 {
            return e;
        }
        return at + 5;
    }
    if e - at < 4 {
        return e;
    }
    at + 4
}

// A part of the sheet.
#[derive(Clone, Copy)]
pub struct Span {
    pub start: usize,
    pub end: usize,
}

// The text of the last formula from a line's beginning on; empty where there is none.
pub fn last_text(s: &[u8], from: usize) -> Span
    ensures { LastText s.now from result }
{
    let mut at = from;
    let mut start: usize = 0;
    let mut end: usize = 0;
    while at < s.len() {
        let e = end_of(b'\n', s, at);
        if s.len() <= e {
            return Span { start, end };
        }
        start = text_at(s, at, e);
        end = e;
        at = e + 1;
    }
    Span { start, end }
}
