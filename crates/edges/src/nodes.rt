// Sets of nodes in a word: bit i is node i. A snapshot has at most 16 nodes. Assumes nothing.
ghost use Rattle.std.specs.Prelude.{◌≡◌, ◌+◌, ◌*◌, ◌^◌, ◌≤◌, ◌<◌, get_or};
ghost use Rattle.wordset.specs.Below.{one};
ghost use Rattle.wordset.specs.Word.{bit};
ghost use Rattle.edges.specs.Nodes.{flip_word, full_word};

// Whether node i is in the set x.
pub fn has(x: u64, i: usize) -> bool
    requires { i < 64 }
    ensures { result ≡ bit x i }
{
    (x >> i) & 1 == 1
}

// Node i goes into a set of nodes below i, if on is true.
pub fn add_if(x: u64, i: usize, on: bool) -> u64
    requires { (x < 2 ^ i) × (i < 16) }
    ensures { result ≡ x + one on * 2 ^ i }
{
    if on { x + (1 << i) } else { x }
}

// All nodes.
pub fn full(n: usize) -> u64
    requires { n ≤ 16 }
    ensures { result ≡ full_word n }
{
    (1 << n) - 1
}

// The nodes that are not in x.
pub fn flip(n: usize, x: u64) -> u64
    requires { n ≤ 16 }
    ensures { result ≡ flip_word n x }
{
    full(n) & !x
}

// The set at a place of a list of sets, the empty one past its end.
pub fn set_at(sets: &[u64], i: usize) -> u64
    ensures { result ≡ get_or sets.now i 0 }
{
    sets.get(i).copied().unwrap_or(0)
}
