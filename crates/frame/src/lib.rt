// From a sheet's bytes to what judging it needs, all that depends on the sheet alone, once for all namings: first what is read off the sheet,
// then the words that are computed from it, in stores that are lent. Assumes nothing.
#![tactic(auto)]

ghost use Rattle.std.specs.Prelude.{◌≡◌, true, List, ℕ, ◌+◌, ◌-◌, ◌*◌, ◌^◌, ◌≤◌, ◌<◌, length, get_or, take};
ghost use Rattle.tableau.specs.Families.{Ready};
ghost use Rattle.start.specs.Starts.{Based, in_base, Named};
ghost use Rattle.frame.specs.Framed.{Frames, FramedAs, Sound, Stores};
ghost use Rattle.frame.specs.SetUp.{Accepts, SetUp, globals_in, lean_in, members_in, names_in, values_in};
ghost use Rattle.frame.specs.Sheets.{SheetOf};

use limits::Limits;
use refusal::Refusal;
use tableau::words::{Sheet, Words};

// The first n of some places, each below 256, at the beginning of a store.
fn copy_places(places: &[usize], n: usize, to: &mut [u8])
    requires n_in_bounds { (n ≤ length places.now) × (n ≤ length to.old) }
    requires by_index { (j : ℕ) → j < n → get_or places.now j 0 < 256 }
    ensures { take n to.new ≡ take n places.now }
{
    for k in 0..n {
        to[k] = places[k] as u8;
    }
}

// How many namings there are for so many names in a lean of that width: a bit for each name and each place but the name's own.
fn count_namings(names: usize, width: usize) -> u64
    requires { (names ≤ 2) × ((width ≤ 12) × (0 < names → 0 < width)) }
    ensures { result ≡ 2 ^ ((width - 1) * names) }
{
    if names == 0 {
        return 1;
    }
    1 << ((width - 1) * names)
}

// How many words hold the types; how many globals, names and values there are; the goal's place in the
// table; how many namings there are.
#[derive(Clone, Copy)]
pub struct Frame {
    pub words: usize,
    pub globals: usize,
    pub names: usize,
    pub values: usize,
    pub goal: usize,
    pub namings: u64,
}

// The places of globals, names and values, each in its store.
fn frame_of(
    ms: &[u64],
    ln: &[u8],
    kinds: &[u8],
    places: &[usize],
    globals: &mut [u8],
    names: &mut [u8],
    values: &mut [u8],
) -> Frame
    requires { Frames ms.now ln.now kinds.now places.now globals.old names.old values.old }
    ensures { FramedAs ms.now ln.now kinds.now places.now globals.new names.new values.new result }
{
    let w = prepare::words_for(ln.len());
    let n = places.len() - 1;
    copy_places(places, n, globals);
    let k = prepare::kind_places(ms, ln, kinds, 2, names);
    let v = prepare::kind_places(ms, ln, kinds, 4, values);
    let namings = count_namings(k, ln.len());
    Frame {
        words: w,
        globals: n,
        names: k,
        values: v,
        goal: places[n],
        namings,
    }
}

// What judging a sheet goes by: its closure with the values that do not occur, and its lean, as the reader has them, the places of globals,
// names and values, and the frame's numbers.
#[derive(Clone, Copy)]
pub struct Setup {
    pub count: usize,
    pub members: [u64; 136],
    pub width: usize,
    pub lean: [u8; 12],
    pub globals: usize,
    pub everywhere: [u8; 8],
    pub names: usize,
    pub named: [u8; 12],
    pub values: usize,
    pub valued: [u8; 12],
    pub words: usize,
    pub goal: usize,
    pub namings: u64,
}

// Any bytes under any limits: a sheet's set-up, or its refusal.
pub fn set_up(l: Limits, s: &[u8]) -> Result<Setup, Refusal>
    ensures { SetUp l s.now result }
{
    let r = limits::read(l, s)?;
    let mut everywhere = [0u8; 8];
    let mut named = [0u8; 12];
    let mut valued = [0u8; 12];
    let f = frame_of(
        &r.members[..r.count],
        &r.lean[..r.width],
        &r.kinds[..r.symbols],
        &r.places[..r.formulas],
        &mut everywhere,
        &mut named,
        &mut valued,
    );
    Ok(Setup {
        count: r.count,
        members: r.members,
        width: r.width,
        lean: r.lean,
        globals: f.globals,
        everywhere,
        names: f.names,
        named,
        values: f.values,
        valued,
        words: f.words,
        goal: f.goal,
        namings: f.namings,
    })
}

// Whether a table of n members over w words is a small one: stores for 72 members over 4 words are enough for it. Most sheets are, and clearing larger stores would cost more than judging them.
pub fn is_small(n: usize, w: usize) -> bool
    ensures { result ≡ true → (n ≤ 72) × (w ≤ 4) }
{
    n <= 72 && w <= 4
}

// Truth words, condition words and needs, and in `base` the types that hold one value and in which all globals are true, by whether they
// have a name: how many needs there are.
fn fill_words(
    ms: &[u64],
    ln: &[u8],
    w: usize,
    globals: &[u8],
    values: &[u8],
    names: &[u8],
    tw: &mut [u64],
    cw: &mut [u64],
    ns: &mut [u64],
    base: &mut [u64],
) -> usize
    requires sound { Sound ms.now ln.now globals.now values.now × Named names.now (length ln.now) }
    requires w_bound { (w ≤ 64) × Stores (length ms.now) w tw.old cw.old ns.old base.old }
    ensures upper_bound { (result ≤ length ns.new) × Ready ms.now ln.now w tw.new cw.new (take result ns.new) }
    ensures based { Based w (in_base ms.now ln.now globals.now values.now) names.now base.new }
{
    truth::truth_words(ms, ln, tw, w);
    needs::field_words(ms, ln, tw, w);
    conditions::condition_words(ms, ln, tw, w, cw);
    start::base_words(ms, ln, tw, w, globals, values, names, base);
    needs::list_needs(ms, ns)
}

// The words that depend on the sheet alone, in stores that are lent: how many needs there are.
pub fn fill(u: &Setup, tw: &mut [u64], cw: &mut [u64], ns: &mut [u64], base: &mut [u64]) -> usize
    requires by_index { (s : List ℕ) × Accepts s u.now }
    requires stores { Stores u.now.count u.now.words tw.old cw.old ns.old base.old }
    ensures upper_bound { (result ≤ length ns.new) × Ready (members_in u.now) (lean_in u.now) u.now.words tw.new cw.new (take result ns.new) }
    ensures based { Based u.now.words (in_base (members_in u.now) (lean_in u.now) (globals_in u.now) (values_in u.now)) (names_in u.now) base.new }
{
    fill_words(
        &u.members[..u.count],
        &u.lean[..u.width],
        u.words,
        &u.everywhere[..u.globals],
        &u.valued[..u.values],
        &u.named[..u.names],
        tw,
        cw,
        ns,
        base,
    )
}

// What the sheet's tables are made from, in the same stores.
pub fn sheet_in<'a>(
    u: &'a Setup,
    tw: &'a mut [u64],
    cw: &'a mut [u64],
    ns: &'a mut [u64],
    base: &'a mut [u64],
) -> Sheet<'a>
    requires by_index { (s : List ℕ) × Accepts s u.now }
    requires stores { Stores u.now.count u.now.words tw.old cw.old ns.old base.old }
    ensures { SheetOf u.entry.now result }
{
    let n = fill(u, tw, cw, ns, base);
    Sheet {
        ms: &u.members[..u.count],
        ln: &u.lean[..u.width],
        names: &u.named[..u.names],
        base,
        words: Words {
            w: u.words,
            tw,
            cw,
            ns: &ns[..n],
        },
    }
}
