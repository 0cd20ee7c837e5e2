// Line 2: the symbols' kinds. Assumes nothing.
ghost use Rattle.std.specs.Prelude.{◌≡◌};
ghost use Rattle.layout.specs.Layout.{line_of};
ghost use Rattle.head.specs.Head.{kind_of, name_count, kind_right, KindsRead};

use layout::{end_of, next_line, same_text};

// A word's kind: 1 mark, 2 name, 3 field, 4 value, 0 none.
pub fn kind_of(w: &[u8]) -> u8
    ensures { result ≡ kind_of w.now }
{
    if same_text(w, b"mark") {
        return 1;
    }
    if same_text(w, b"name") {
        return 2;
    }
    if same_text(w, b"field") {
        return 3;
    }
    if same_text(w, b"value") {
        return 4;
    }
    0
}

// How many of the kinds are names.
pub fn name_count(ks: &[u8]) -> usize
    ensures { result ≡ name_count ks.now }
{
    ks.iter().filter(|&&k| k == 2).count()
}

// A kind may follow those seen.
pub fn kind_right(seen: &[u8], k: u8) -> bool
    ensures { result ≡ kind_right seen.now k }
{
    if k == 0 {
        return false;
    }
    if 8 <= seen.len() {
        return false;
    }
    if k == 2 {
        return name_count(seen) < 2;
    }
    true
}

// The symbols' kinds: 1 to 8. The count stands beside an array since the project has no heap.
#[derive(Clone, Copy)]
pub struct Kinds {
    pub count: usize,
    pub kinds: [u8; 8],
}

// 5: the kinds of line 2; none where it is wrong.
pub fn read_kinds(line: &[u8]) -> Option<Kinds>
    ensures { KindsRead line.now result }
{
    let mut kinds = [0; 8];
    let mut count = 0;
    for word in line.split(|&b| b == b' ') {
        let k = kind_of(word);
        if !kind_right(&kinds[..count], k) {
            return None;
        }
        kinds[count] = k;
        count += 1;
    }
    Some(Kinds { count, kinds })
}

// The kinds of the sheet's line 2.
pub fn line_two(s: &[u8]) -> Option<Kinds>
    ensures { KindsRead (line_of s.now 1) result }
{
    let at = next_line(s, 0);
    read_kinds(&s[at..end_of(b'\n', s, at)])
}
