// The declarations: which word is which symbol, fields apart from the others. Assumes nothing.
ghost use Rattle.std.specs.Prelude.{◌≡◌, ◌≤◌, length};
ghost use Rattle.head.specs.Head.{place_of, declared};

// The place of the symbol `i` of a kind.
pub fn place_of(i: usize, kind: u8) -> usize
    requires { i ≤ 8 }
    ensures { result ≡ place_of i kind }
{
    if kind == 3 {
        return 8 + i;
    }
    i
}

// The declarations: the symbols' words, each at its place.
pub fn declare(words: &[u64], kinds: &[u8]) -> [u64; 16]
    requires { length words.now ≤ 8 }
    ensures { result ≡ declared words.now kinds.now }
{
    let mut tab = [0u64; 16];
    for i in 0..words.len().min(kinds.len()) {
        tab[place_of(i, kinds[i])] = words[i];
    }
    tab
}
