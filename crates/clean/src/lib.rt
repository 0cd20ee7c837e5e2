// A sheet that was read, written clean into a store: lines 1 and 2 as they are, then each formula in canonical print. All lines are measured before the first byte is written.
// Assumes nothing.
#![tactic(auto)]

mod print;

ghost use Rattle.std.specs.Prelude.{◌≡◌, ◌+◌, ◌≤◌, length};
ghost use Rattle.buffer.specs.Put.{Put};
ghost use Rattle.layout.specs.Layout.{unlines};
ghost use Rattle.sheet.specs.Refusal.{read_refusal};
ghost use Rattle.reader.specs.Reader.{Says};
ghost use Rattle.members.specs.Grown.{Ready};
ghost use Rattle.prints.specs.Prints.{Printable};
ghost use Rattle.clean.specs.Written.{Among, length_by, lines_at, Written};

use buffer::put;
use print::put_print;
use prints::measure;
use reader::Reading;

// The length of `from` bytes and a line for each formula, with its newline, where their prints are so long; none if one of these is too long.
fn measure_lines(
    tab: &[u64],
    n: usize,
    lens: &[usize],
    words: &[u64],
    places: &[usize],
    from: usize,
) -> Option<usize>
    requires printable { Printable tab.now n lens.now words.now × Among n places.now }
    requires places_len_bound { (length places.now ≤ 5) × (from ≤ 1024) }
    ensures { result ≡ length_by from (lines_at tab.now n words.now places.now) }
{
    let mut size = from;
    for (i, &place) in places.iter().enumerate() {
        let word = if i + 1 < places.len() { 4 } else { 5 };
        let long = lens[place];
        if 200 - word < long {
            return None;
        }
        size += word + long + 1;
    }
    Some(size)
}

// Puts a line for each formula, the last one the goal, behind the bytes that the store holds.
fn put_lines(
    tab: &[u64],
    n: usize,
    words: &[u64],
    places: &[usize],
    out: &mut [u8],
    at: usize,
) -> usize
    requires ready { Ready tab.now n × Among n places.now }
    requires places_in_bounds { at + length (unlines (lines_at tab.now n words.now places.now)) ≤ length out.old }
    ensures { Put at (unlines (lines_at tab.now n words.now places.now)) out.old out.new result }
{
    let mut used = at;
    for (i, &place) in places.iter().enumerate() {
        if i + 1 < places.len() {
            used = put(out, used, b"all ");
        } else {
            used = put(out, used, b"goal ");
        }
        used = put_print(tab, n, words, place, out, used);
        out[used] = b'\n';
        used += 1;
    }
    used
}

// The clean text of a sheet, at the beginning of a store: its length; none if it does not fit, and then nothing is written.
pub fn write_clean(sheet: &[u8], r: Reading, store: &mut [u8]) -> Option<usize>
    requires { (read_refusal sheet.now ≡ 0) × Says sheet.now r }
    ensures { Written sheet.now store.old result store.new }
{
    let members = r.members;
    let words = r.words;
    let places = r.places;
    let mut lens = [0usize; 136];
    measure(&members, r.count, &mut lens, &words[..r.symbols]);
    let from = layout::third_line(sheet);
    let size = measure_lines(
        &members,
        r.count,
        &lens,
        &words[..r.symbols],
        &places[..r.formulas],
        from,
    )?;
    if 1024 < size {
        return None;
    }
    if store.len() < size {
        return None;
    }
    let at = put(store, 0, &sheet[..from]);
    put_lines(
        &members,
        r.count,
        &words[..r.symbols],
        &places[..r.formulas],
        store,
        at,
    );
    Some(size)
}
