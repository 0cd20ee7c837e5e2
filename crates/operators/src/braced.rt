// Modes in braces, read from a line. Assumes nothing.
ghost use Rattle.std.specs.Prelude.{◌≡◌, ◌≤◌, ◌<◌, length};
ghost use Rattle.operators.specs.Modes.{ModeRead, ModesInside, ModesRead, braces_at};

use crate::sets::{lower, with_mode};
use spelling::entry;
use token::{Tok, Token, next_token, next_two};

// What reading braces finds: the position after them, the set of modes and the lowest refusal.
#[derive(Clone, Copy)]
pub struct Modes {
    pub next: usize,
    pub mask: u32,
    pub low: u8,
}

// The mode of a token, added to a set.
pub fn one_mode(decl: &[u64], t: Token, mask: u32) -> Option<Modes>
    requires { mask < 65536 }
    ensures { ModeRead decl.now mask t result }
{
    let m = match t.tok {
        Tok::Letter(i) => with_mode(mask, entry(decl, i), 0),
        Tok::Capital(i) => with_mode(mask, entry(decl, i), 8),
        _ => return None,
    };
    Some(Modes {
        next: t.next,
        mask: m.mask,
        low: m.low,
    })
}

// Modes with commas between, up to the closing brace, added to a set.
pub fn modes_from(s: &[u8], decl: &[u64], at: usize, mask: u32, low: u8) -> Option<Modes>
    requires { (at ≤ length s.now) × (mask < 65536) }
    ensures { ModesRead s.now decl.now at mask low result }
{
    let (first, u) = next_two(s, at);
    let found = one_mode(decl, first, mask)?;
    let low = lower(low, found.low);
    match u.tok {
        Tok::Comma => modes_from(s, decl, u.next, found.mask, low),
        Tok::CloseBrace => Some(Modes {
            next: u.next,
            mask: found.mask,
            low,
        }),
        _ => None,
    }
}

// A set of modes in braces.
pub fn braces(s: &[u8], decl: &[u64], at: usize) -> Option<Modes>
    requires { at ≤ length s.now }
    ensures { (result ≡ braces_at s.now decl.now at) × ModesInside (length s.now) at result }
{
    let t = next_token(s, at);
    let Tok::OpenBrace = t.tok else {
        return None;
    };
    let u = next_token(s, t.next);
    if let Tok::CloseBrace = u.tok {
        return Some(Modes {
            next: u.next,
            mask: 0,
            low: 8,
        });
    }
    modes_from(s, decl, t.next, 0, 9)
}
