// The start types, by words. Once for all namings: the types that hold one value and make the globals true, those without a name apart from those with one. Then for each
// naming: those without a name, and for each name the one type that the naming leaves to it. Assumes nothing.
#![tactic(auto)]

ghost use Rattle.std.specs.Prelude.{◌≡◌, ◌&&◌, ◌||◌, ℕ, ◌+◌, ◌*◌, ◌^◌, ◌≤◌, ◌<◌, eqb, ltb, length, get_or};
ghost use Rattle.wordset.specs.Words.{member, packed};
ghost use Rattle.wordset.specs.Answers.{Answers};
ghost use Rattle.truth.specs.Truths.{Truths};
ghost use Rattle.start.specs.Starts.{Based, has_none, has_one, fits_name, in_base, Named, named_type, obeys_by, starts_by};

use truth::place_word;

// Answers 0 of the types below 2 ^ n, for n below 6.
const LOW: [u64; 6] = [0x1, 0x3, 0xF, 0xFF, 0xFFFF, 0xFFFF_FFFF];

// Answers k of the types below 2 ^ n.
fn low_word(n: usize, k: usize) -> u64
    requires { n ≤ 60 }
    ensures { Answers (λ t. ltb t (2 ^ n)) k result }
{
    if n < 6 {
        if k == 0 { LOW[n] } else { 0 }
    } else if k < 1 << (n - 6) {
        u64::MAX
    } else {
        0
    }
}

// Answers k of the types that have exactly one of some places; of all types where there are none.
fn one_word(values: &[u8], k: usize) -> u64
    requires { (i : ℕ) → i < length values.now → get_or values.now i 0 ≤ 60 }
    ensures { Answers (has_one values.now) k result }
{
    if values.is_empty() {
        return u64::MAX;
    }
    let mut once: u64 = 0;
    let mut twice: u64 = 0;
    for &v in values {
        let p = place_word(v as usize, k);
        twice |= once & p;
        once |= p;
    }
    once & !twice
}

// Answers k of the types over the lean that have exactly one of the value places and in which all globals are true.
fn base_word(
    ms: &[u64],
    ln: &[u8],
    tw: &[u64],
    w: usize,
    globals: &[u8],
    values: &[u8],
    k: usize,
) -> u64
    requires truths { Truths ms.now ln.now w tw.now }
    requires k_lt_w { (k < w) × (length ln.now ≤ 60) }
    requires by_index { (i : ℕ) → i < length globals.now → get_or globals.now i 0 < length ms.now }
    requires by_index_2 { (i : ℕ) → i < length values.now → get_or values.now i 0 ≤ 60 }
    ensures { Answers (in_base ms.now ln.now globals.now values.now) k result }
{
    let mut acc = u64::MAX;
    for &g in globals {
        acc &= tw[g as usize * w + k];
    }
    low_word(ln.len(), k) & (one_word(values, k) & acc)
}

// Answers k of the types that have none of some places.
fn free_word(names: &[u8], k: usize) -> u64
    requires { (i : ℕ) → i < length names.now → get_or names.now i 0 ≤ 60 }
    ensures { Answers (has_none names.now) k result }
{
    let mut acc = u64::MAX;
    for &v in names {
        acc &= !place_word(v as usize, k);
    }
    acc
}

// The first w words of base become those types of `base_word` that have no name, the next w words those that have one.
pub fn base_words(
    ms: &[u64],
    ln: &[u8],
    tw: &[u64],
    w: usize,
    globals: &[u8],
    values: &[u8],
    names: &[u8],
    base: &mut [u64],
)
    requires truths { Truths ms.now ln.now w tw.now }
    requires w_in_bounds { w + w ≤ length base.old }
    requires by_index { (i : ℕ) → i < length globals.now → get_or globals.now i 0 < length ms.now }
    requires by_index_2 { (i : ℕ) → i < length values.now → get_or values.now i 0 ≤ 60 }
    requires named { Named names.now (length ln.now) }
    ensures { Based w (in_base ms.now ln.now globals.now values.now) names.now base.new }
{
    for k in 0..w {
        let all = base_word(ms, ln, tw, w, globals, values, k);
        let free = free_word(names, k);
        base[k] = all & free;
        base[w + k] = all & !free;
    }
}

// The one type that has name i, at place v of n, under naming r: the name's set, with the name's place put in.
fn named_type(v: usize, n: usize, r: u64, i: usize) -> usize
    requires { (v < n) × ((n ≤ 31) × (i < 2)) }
    ensures { result ≡ named_type v n r i }
{
    let c = n - 1;
    let d = (r >> (c * i)) % (1 << c);
    let high = ((d >> v) * 2 + 1) << v;
    (high + d % (1 << v)) as usize
}

// Whether a type obeys naming r as to name i, at place v of n: if it has the name, it is the name's type.
fn fits_name(v: usize, n: usize, r: u64, i: usize, t: usize) -> bool
    requires { (v < n) × ((n ≤ 31) × (i < 2)) }
    ensures { result ≡ fits_name v n r i t }
{
    (t >> v) & 1 == 0 || t == named_type(v, n, r, i)
}

// Whether a type obeys naming r.
fn obeys(names: &[u8], n: usize, r: u64, t: usize) -> bool
    requires { Named names.now n }
    ensures { result ≡ obeys_by names.now n r t }
{
    for (i, &v) in names.iter().enumerate() {
        if !fits_name(v as usize, n, r, i, t) {
            return false;
        }
    }
    true
}

// Type t joins those in the first w words of dst, if it obeys naming r and is one of the types of base that have a name.
fn add_type(names: &[u8], n: usize, r: u64, w: usize, base: &[u64], t: usize, dst: &mut [u64])
    requires { Named names.now n × ((w ≤ 1024) × ((w + w ≤ length base.now) × ((w ≤ length dst.old) × (t < w * 64)))) }
    ensures { dst.new ≡ packed w (λ u. member dst.old u || (member base.now (w * 64 + u) && (eqb u t && obeys_by names.now n r u))) dst.old }
{
    if wordset::contains(base, w * 64 + t) && obeys(names, n, r, t) {
        dst[t / 64] |= 1 << (t % 64);
    }
}

// The first w words of dst become the start types of naming r: those of base without a name, and of those with one the names' own types that obey.
pub fn start_words(names: &[u8], n: usize, r: u64, w: usize, base: &[u64], dst: &mut [u64])
    requires { Named names.now n × ((2 ^ n ≤ w * 64) × ((w ≤ 1024) × ((w + w ≤ length base.now) × (w ≤ length dst.old)))) }
    ensures { dst.new ≡ packed w (starts_by w base.now names.now n r) dst.old }
{
    wordset::copy(dst, base, w);
    for (i, &v) in names.iter().enumerate() {
        let t = named_type(v as usize, n, r, i);
        add_type(names, n, r, w, base, t, dst);
    }
}
