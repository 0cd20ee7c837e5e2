// Reading a sheet within given limits: from its bytes to symbols, kinds, formulas, closure and lean, or to one refusal.
#![tactic(auto)]

ghost use Rattle.std.specs.Prelude.{◌≡◌, ◌-◌, ◌≤◌, ◌<◌, length};
ghost use Rattle.reader.specs.Reader.{RootsAre, ReadIs};

use refusal::Refusal;

// What a sheet says: its symbols' spellings as words and kinds (1 mark, 2 name, 3 field, 4 value); the members of its closure and behind them the values that do not occur, each a
// word over those before it; the places among them of its formulas in positive form, globals first, then the goal; and of its lean, in order.
#[derive(Clone, Copy)]
pub struct Reading {
    pub symbols: usize,
    pub words: [u64; 8],
    pub kinds: [u8; 8],
    pub formulas: usize,
    pub places: [usize; 5],
    pub count: usize,
    pub members: [u64; 136],
    pub width: usize,
    pub lean: [u8; 12],
}

// The places of formulas, from the places after them.
fn roots_of(ends: [usize; 5]) -> [usize; 5]
    ensures { RootsAre ends result }
{
    [
        ends[0].saturating_sub(1),
        ends[1].saturating_sub(1),
        ends[2].saturating_sub(1),
        ends[3].saturating_sub(1),
        ends[4].saturating_sub(1),
    ]
}

// The sheet, where its closure has at most `most` members and its lean at most `wide` places, with its nodes in a store that has a place for
// each of its bytes.
fn read_in(s: &[u8], most: usize, wide: usize, nodes: &mut [u64]) -> Result<Reading, Refusal>
    requires most_bound { (most ≤ 128) × (wide ≤ 12) }
    requires nodes_nonzero { ((0 < length nodes.old) × (length nodes.old ≤ 1024)) × (length s.now ≤ 1024 → length s.now ≤ length nodes.old) }
    ensures { ReadIs most wide s.now result }
{
    let sheet = sheet::read_sheet(s, nodes)?;
    let n = sheet.lines;
    let ends = sheet.ends;
    let roots = roots_of(ends);
    // Room for 128 closure members and 8 values.
    let mut members = [0u64; 136];
    let mut places = [0usize; 5];
    let Some(closed) = closure::close(nodes, &roots[..n], &mut members, &mut places) else {
        return Err(Refusal::Closure);
    };
    if most < closed {
        return Err(Refusal::Closure);
    }
    let symbols = sheet.symbols;
    let kinds = sheet.kinds;
    let count = values::with_values(&kinds[..symbols], &mut members, closed);
    let words = sheet.words;
    let mut lean = [0u8; 12];
    let Some(width) = lean::lean_of(&members, count, &words[..symbols], &mut lean) else {
        return Err(Refusal::Lean);
    };
    if wide < width {
        return Err(Refusal::Lean);
    }
    Ok(Reading {
        symbols,
        words,
        kinds,
        formulas: n,
        places,
        count,
        members,
        width,
        lean,
    })
}

// The sheet, within those limits. Most sheets are short, and clearing a large store would cost more than reading them.
pub fn read_within(s: &[u8], most: usize, wide: usize) -> Result<Reading, Refusal>
    requires { (most ≤ 128) × (wide ≤ 12) }
    ensures { ReadIs most wide s.now result }
{
    if s.len() <= 128 {
        let mut nodes = [0u64; 128];
        return read_in(s, most, wide, &mut nodes);
    }
    if s.len() <= 256 {
        let mut nodes = [0u64; 256];
        return read_in(s, most, wide, &mut nodes);
    }
    let mut nodes = [0u64; 1024];
    read_in(s, most, wide, &mut nodes)
}
