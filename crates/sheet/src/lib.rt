// The sheet: its formulas, and the refusals 1 to 8.
#![tactic(auto)]

ghost use Rattle.std.specs.Prelude.{◌≡◌, ◌+◌, ◌-◌, ◌≤◌, ◌<◌, length, true};
ghost use Rattle.layout.specs.Layout.{lines_from, texts_of, layout_right};
ghost use Rattle.sheet.specs.Sheet.{found_refusal, OneRead, FormulasRead, SheetRead, goal_under, goal_start};

use head::Head;
use refusal::Refusal;

// A formula that was read: how many nodes the table then holds, and its refusal 6, 7 or 8, or 9 for none.
#[derive(Clone, Copy)]
pub struct One {
    pub count: usize,
    pub low: u8,
}

// The refusal that a reading found: 7, 8, or 9 for none.
fn found_refusal(low: u8) -> u8
    ensures { result ≡ found_refusal low }
{
    if low == 7 {
        return 7;
    }
    if low == 8 {
        return 8;
    }
    9
}

fn read_one(text: &[u8], decl: &[u64], tab: &mut [u64], n: usize) -> One
    requires { (n + length text.now ≤ length tab.old) × (length tab.old ≤ 1024) }
    ensures { OneRead text.now decl.now n tab.old tab.new result }
{
    match syntax::read_line(text, decl, 0, tab, n) {
        Some(p) => One {
            count: p.count,
            low: found_refusal(p.low),
        },
        None => One { count: n, low: 6 },
    }
}

// The formulas that were read: the lowest of their refusals, how many there are, how many nodes, and the place after each formula's own node.
#[derive(Clone, Copy)]
pub struct Formulas {
    pub low: u8,
    pub lines: usize,
    pub count: usize,
    pub ends: [usize; 5],
}

// The formulas on the lines from a line's beginning on, into a table.
fn read_formulas(s: &[u8], from: usize, decl: &[u64], tab: &mut [u64]) -> Formulas
    requires { (length s.now ≤ length tab.old) × ((length tab.old ≤ 1024) × (length (texts_of (lines_from s.now from)) ≤ 5)) }
    ensures { FormulasRead decl.now (texts_of (lines_from s.now from)) tab.new result }
{
    let mut ends = [0usize; 5];
    let mut low: u8 = 9;
    let mut k: usize = 0;
    let mut n: usize = 0;
    let mut at = from;
    while at < s.len() {
        let e = layout::end_of(b'\n', s, at);
        if s.len() <= e {
            return Formulas {
                low,
                lines: k,
                count: n,
                ends,
            };
        }
        let a = layout::text_at(s, at, e);
        let one = read_one(&s[a..e], decl, tab, n);
        n = one.count;
        low = operators::lower(low, one.low);
        ends[k] = n;
        k += 1;
        at = e + 1;
    }
    Formulas {
        low,
        lines: k,
        count: n,
        ends,
    }
}

// A sheet that was read: the symbols' number, spellings as words and kinds (1 mark, 2 name, 3 field, 4 value); and the formulas, globals first, then the goal.
#[derive(Clone, Copy)]
pub struct Sheet {
    pub symbols: usize,
    pub words: [u64; 8],
    pub kinds: [u8; 8],
    pub lines: usize,
    pub count: usize,
    pub ends: [usize; 5],
}

// The sheet, its formulas into a table that has a place for each of its bytes, if it is not too long; or the lowest of the refusals 1 to 8.
pub fn read_sheet(s: &[u8], tab: &mut [u64]) -> Result<Sheet, Refusal>
    requires { (length tab.old ≤ 1024) × (length s.now ≤ 1024 → length s.now ≤ length tab.old) }
    ensures { SheetRead s.now tab.new result }
{
    let Head {
        count: symbols,
        words,
        kinds,
        decl,
        from,
    } = head::read_head(s)?;
    let Formulas {
        low,
        lines,
        count,
        ends,
    } = read_formulas(s, from, &decl, tab);
    match low {
        6 => return Err(Refusal::Grammar),
        7 => return Err(Refusal::Symbol),
        8 => return Err(Refusal::Braces),
        _ => {}
    }
    Ok(Sheet {
        symbols,
        words,
        kinds,
        lines,
        count,
        ends,
    })
}

// The goal's text, a part of the sheet; empty with a refusal, which the caller gives.
pub fn goal_part(s: &[u8], refusal: u8) -> &[u8]
    ensures result_value { result.now ≡ goal_under s.now refusal }
    ensures ref_ptr_value { (result.ref_ptr.0 ≡ s.entry.ref_ptr.0) × ((refusal ≡ 0 → layout_right s.now ≡ true) → result.ref_ptr.1 ≡ s.entry.ref_ptr.1 + goal_start s.now refusal) }
{
    if refusal != 0 {
        return &s[0..0];
    }
    let g = layout::last_text(s, layout::third_line(s));
    let a = g.start;
    let z = g.end;
    &s[a..z]
}
