// The head of a sheet, its lines 1 and 2: the symbols' spellings and kinds, and the refusals 1 to 5. Assumes nothing.
#![tactic(auto)]

mod declarations;
mod kinds;
mod names;

ghost use Rattle.std.specs.Prelude.{◌≡◌};
ghost use Rattle.head.specs.Head.{HeadRead};

use declarations::declare;
use kinds::line_two;
use layout::{byte_wrong, layout_right, length_wrong, third_line};
use names::line_one;
use refusal::Refusal;

// What lines 1 and 2 say: the symbols' number, spellings as words, kinds and declarations, and the place of the third line.
#[derive(Clone, Copy)]
pub struct Head {
    pub count: usize,
    pub words: [u64; 8],
    pub kinds: [u8; 8],
    pub decl: [u64; 16],
    pub from: usize,
}

// The head, or the lowest of the refusals 1 to 5.
pub fn read_head(s: &[u8]) -> Result<Head, Refusal>
    ensures { HeadRead s.now result }
{
    if length_wrong(s) {
        return Err(Refusal::Length);
    }
    if byte_wrong(s) {
        return Err(Refusal::Byte);
    }
    if !layout_right(s) {
        return Err(Refusal::Layout);
    }
    let Some(names) = line_one(s) else {
        return Err(Refusal::Names);
    };
    let Some(kinds) = line_two(s) else {
        return Err(Refusal::Kinds);
    };
    let count = names.count;
    if kinds.count != count {
        return Err(Refusal::Kinds);
    }
    let decl = declare(&names.words[..count], &kinds.kinds[..count]);
    Ok(Head {
        count,
        words: names.words,
        kinds: kinds.kinds,
        decl,
        from: third_line(s),
    })
}
