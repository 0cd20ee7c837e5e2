// The entries of a snapshot against their limits, its names and its values. Assumes nothing.
ghost use Rattle.std.specs.Prelude.{◌≡◌, ◌+◌, ◌*◌, ◌≤◌, ◌<◌, ◌&&◌, eqb, leb, length};
ghost use Rattle.wordset.specs.Below.{any_below};
ghost use Rattle.snapshot.specs.Read.{limit, line_fits, fits, on_count, twice, is_value, held_count, not_one};

// The largest entry of a symbol of this kind, on n nodes.
fn bound(kind: u8, n: usize) -> usize
    ensures { result ≡ limit kind n }
{
    if kind == 3 { n } else { 1 }
}

// Whether the entries of node i are within their limits.
fn line_fits(kinds: &[u8], n: usize, out: &[u8], i: usize) -> bool
    requires { (length kinds.now ≤ 8) × (i * 8 + 8 ≤ length out.now) }
    ensures { result ≡ line_fits kinds.now n out.now i }
{
    for (k, &kind) in kinds.iter().enumerate() {
        if bound(kind, n) < usize::from(out[i * 8 + k]) {
            return false;
        }
    }
    true
}

// Whether the entries of all n nodes are.
pub fn all_fit(kinds: &[u8], n: usize, out: &[u8]) -> bool
    requires { (length kinds.now ≤ 8) × (n * 8 ≤ length out.now) }
    ensures { result ≡ fits kinds.now n out.now }
{
    for i in 0..n {
        if !line_fits(kinds, n, out, i) {
            return false;
        }
    }
    true
}

// How many nodes symbol k is on.
fn on_count(out: &[u8], n: usize, k: usize) -> usize
    requires { (k < 8) × (n * 8 ≤ length out.now) }
    ensures { result ≡ on_count out.now n k }
{
    let mut c = 0;
    for i in 0..n {
        if out[i * 8 + k] == 1 {
            c += 1;
        }
    }
    c
}

// Whether symbol k is a name on two nodes.
fn name_twice(kind: u8, out: &[u8], n: usize, k: usize) -> bool
    requires { (k < 8) × (n * 8 ≤ length out.now) }
    ensures { result ≡ (eqb kind 2 && leb 2 (on_count out.now n k)) }
{
    kind == 2 && 2 <= on_count(out, n, k)
}

// Whether a name is on two nodes.
pub fn some_twice(kinds: &[u8], n: usize, out: &[u8]) -> bool
    requires { (length kinds.now ≤ 8) × (n * 8 ≤ length out.now) }
    ensures { result ≡ twice kinds.now n out.now }
{
    for (k, &kind) in kinds.iter().enumerate() {
        if name_twice(kind, out, n, k) {
            return true;
        }
    }
    false
}

// Whether any symbol is a value.
fn some_value(kinds: &[u8]) -> bool
    ensures { result ≡ any_below (length kinds.now) (is_value kinds.now) }
{
    kinds.contains(&4)
}

// Whether the entry is that of a value that a node holds.
fn holds(kind: u8, entry: u8) -> bool
    ensures { result ≡ (eqb kind 4 && eqb entry 1) }
{
    kind == 4 && entry == 1
}

// How many of the values node i holds.
fn held_count(kinds: &[u8], out: &[u8], i: usize) -> usize
    requires { (length kinds.now ≤ 8) × (i * 8 + 8 ≤ length out.now) }
    ensures { result ≡ held_count kinds.now out.now i }
{
    let mut c = 0;
    for (k, &kind) in kinds.iter().enumerate() {
        if holds(kind, out[i * 8 + k]) {
            c += 1;
        }
    }
    c
}

// Whether there is a value, and a node that holds none of the values, or several.
pub fn some_not_one(kinds: &[u8], n: usize, out: &[u8]) -> bool
    requires { (length kinds.now ≤ 8) × (n * 8 ≤ length out.now) }
    ensures { result ≡ not_one kinds.now n out.now }
{
    if !some_value(kinds) {
        return false;
    }
    for i in 0..n {
        if held_count(kinds, out, i) != 1 {
            return true;
        }
    }
    false
}
