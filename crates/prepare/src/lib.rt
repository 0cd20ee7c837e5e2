// What the tableau needs besides the reader's answer: which of the lean's places are names and values, and how many words hold its types.
#![tactic(auto)]

ghost use Rattle.std.specs.Prelude.{◌≡◌, cond, ◌+◌, ◌≤◌, ◌<◌, length, set};
ghost use Rattle.prepare.specs.Places.{kind_word, places_by, Sought, Found};
ghost use Rattle.prepare.specs.Width.{words_for};

use members::parts::{arg, tag};

// Whether a member's word is a symbol of a kind.
#[tactic(auto, unfolding(crate::specs::Places::kind_word))]
fn is_kind(x: u64, kinds: &[u8], kind: u8) -> bool
    ensures { result ≡ kind_word kinds.now kind x }
{
    tag(x) == 2 && kinds.get(arg(x) as usize).copied().unwrap_or(0) == kind
}

// x at place n if on is true; the place after.
fn put_if(store: &mut [u8], n: usize, x: u8, on: bool) -> usize
    requires { n < length store.old }
    ensures { (result ≡ cond on (n + 1) n) × (store.new ≡ cond on (set store.old n x) store.old) }
{
    if on {
        store[n] = x;
        return n + 1;
    }
    n
}

// The lean's places that are symbols of a kind, ascending, at the beginning of a store; how many they are.
pub fn kind_places(ms: &[u64], ln: &[u8], kinds: &[u8], kind: u8, store: &mut [u8]) -> usize
    requires { (0 < kind) × Sought ms.now ln.now store.old }
    ensures { Found (places_by kind ms.now ln.now kinds.now) store.old store.new result }
{
    let mut n = 0;
    for (k, &i) in ln.iter().enumerate() {
        let is = is_kind(ms[usize::from(i)], kinds, kind);
        n = put_if(store, n, k as u8, is);
    }
    n
}

// How many words hold the types over a lean of that width: 1, 2, 4 and so on up to 64.
pub fn words_for(width: usize) -> usize
    requires { width ≤ 12 }
    ensures { result ≡ words_for width }
{
    if width < 7 {
        return 1;
    }
    1 << (width - 6)
}
