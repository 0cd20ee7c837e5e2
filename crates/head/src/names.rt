// Line 1: the symbols' spellings, as words. Assumes nothing.
ghost use Rattle.std.specs.Prelude.{◌≡◌};
ghost use Rattle.layout.specs.Layout.{line_of};
ghost use Rattle.head.specs.Head.{word_right, NamesRead};

use layout::end_of;
use spelling::{is_spelling, word_from};

// A text is a spelling, none of those seen, which are below 8.
pub fn name_right(seen: &[u64], word: &[u8]) -> bool
    ensures { result ≡ word_right seen.now word.now }
{
    if !is_spelling(word) {
        return false;
    }
    if 8 <= seen.len() {
        return false;
    }
    let x = word_from(word, 0);
    !seen.contains(&x)
}

// The symbols' spellings, as words: 1 to 8. The count stands beside an array since the project has no heap.
#[derive(Clone, Copy)]
pub struct Names {
    pub count: usize,
    pub words: [u64; 8],
}

// 4: the spellings of line 1; none where it is wrong.
pub fn read_names(line: &[u8]) -> Option<Names>
    ensures { NamesRead line.now result }
{
    let mut words = [0; 8];
    let mut count = 0;
    for word in line.split(|&b| b == b' ') {
        if !name_right(&words[..count], word) {
            return None;
        }
        words[count] = word_from(word, 0);
        count += 1;
    }
    Some(Names { count, words })
}

// The spellings of the sheet's line 1.
pub fn line_one(s: &[u8]) -> Option<Names>
    ensures { NamesRead (line_of s.now 0) result }
{
    read_names(&s[..end_of(b'\n', s, 0)])
}
