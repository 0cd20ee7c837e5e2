// The spelling of a symbol as one word: up to 8 lower-case letters, a byte each, the first lowest. Assumes nothing.
#![tactic(auto)]

ghost use Rattle.std.specs.Prelude.{◌≡◌, ℕ, ◌+◌, ◌^◌, ◌≤◌, ◌<◌, length, get_or, drop};
ghost use Rattle.spelling.specs.Spelling.{lower, run, spelled, word, letters_from, entry_in};

pub fn is_lower(b: u8) -> bool
    ensures { result ≡ lower b }
{
    b'a' <= b && b <= b'z'
}

// The position of the first byte from `at` on that is no lower-case letter, or the end.
pub fn run_end(s: &[u8], at: usize) -> usize
    requires { at ≤ length s.now }
    ensures { (result ≡ at + run (drop at s.now)) × ((at ≤ result) × (result ≤ length s.now)) }
{
    for i in at..s.len() {
        if !is_lower(s[i]) {
            return i;
        }
    }
    s.len()
}

// A text is 1 to 8 lower-case letters.
pub fn is_spelling(w: &[u8]) -> bool
    ensures { result ≡ spelled w.now }
{
    if w.len() < 1 {
        return false;
    }
    if 8 < w.len() {
        return false;
    }
    run_end(w, 0) == w.len()
}

// The letters from a on, as a word.
pub fn word_from(w: &[u8], a: usize) -> u64
    requires { (a ≤ length w.now) × (length w.now ≤ a + 8) }
    ensures { (result ≡ word (drop a w.now)) × ((f : ℕ) → length w.now ≤ a + f → result < 256 ^ f) }
{
    let mut x = 0;
    for i in (a..w.len()).rev() {
        x = u64::from(w[i]) + 256 * x;
    }
    x
}

// How many letters a word has.
pub fn letter_count(x: u64) -> usize
    ensures { (f : ℕ) → x < 256 ^ f → (result ≡ length (letters_from f x)) × (result ≤ f) }
{
    if x == 0 {
        return 0;
    }
    1 + letter_count(x / 256)
}

// Letter k of a word, 0 behind its last.
pub fn letter_of(x: u64, k: usize) -> u8
    ensures { (f : ℕ) → x < 256 ^ f → result ≡ get_or (letters_from f x) k 0 }
{
    if k == 0 {
        return (x % 256) as u8;
    }
    letter_of(x / 256, k - 1)
}

// A word's entry in the declarations: 1 + its first place among 16, 0 where it has none.
pub fn entry(decl: &[u64], x: u64) -> u8
    ensures { result ≡ entry_in decl.now x }
{
    if x == 0 {
        return 0;
    }
    match decl.iter().take(16).position(|&d| d == x) {
        Some(i) => i as u8 + 1,
        None => 0,
    }
}
