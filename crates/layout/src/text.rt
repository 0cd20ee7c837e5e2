// Texts: a byte's place in one, and two texts compared. Assumes nothing.
ghost use Rattle.std.specs.Prelude.{◌≡◌, ◌≤◌, length};
ghost use Rattle.layout.specs.Text.{end_of, begins, same, has};

// The position of the first byte `b` from `at` on, or the end.
pub fn end_of(b: u8, s: &[u8], at: usize) -> usize
    requires { at ≤ length s.now }
    ensures { (result ≡ end_of b s.now at) × ((at ≤ result) × (result ≤ length s.now)) }
{
    for i in at..s.len() {
        if s[i] == b {
            return i;
        }
    }
    s.len()
}

// Two texts are the same.
pub fn same_text(a: &[u8], b: &[u8]) -> bool
    ensures { result ≡ same a.now b.now }
{
    a == b
}

// A text begins with another.
pub fn begins_with(s: &[u8], p: &[u8]) -> bool
    ensures { result ≡ begins s.now p.now }
{
    s.starts_with(p)
}

// A byte is in a text.
pub fn has_byte(b: u8, s: &[u8]) -> bool
    ensures { result ≡ has b s.now }
{
    s.contains(&b)
}
