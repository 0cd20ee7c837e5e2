// Types of a set that are in a block of truth words. Assumes nothing.
ghost use Rattle.std.specs.Prelude.{◌≡◌, not, ◌&&◌, ◌+◌, ◌*◌, ◌≤◌, length};
ghost use Rattle.wordset.specs.Below.{any_below};
ghost use Rattle.wordset.specs.Words.{member, packed};
ghost use Rattle.truth.specs.Blocks.{has};

// The first w words of dst become the types of src that are in block i: whether there are any.
pub fn pick(dst: &mut [u64], src: &[u64], tw: &[u64], w: usize, i: usize) -> bool
    requires { (w ≤ length dst.old) × (w ≤ length src.now) × (i * w + w ≤ length tw.now) }
    ensures dst_after { dst.new ≡ packed w (λ t. member src.now t && has w tw.now i t) dst.old }
    ensures value { result ≡ any_below (w * 64) (λ t. member src.now t && has w tw.now i t) }
{
    let mut any: u64 = 0;
    for k in 0..w {
        let at = i * w + k;
        let x = src[k] & tw[at];
        dst[k] = x;
        any |= x;
    }
    any != 0
}

// The first w words of dst become the types of src that are not in u and are in block i.
pub fn pick_less(dst: &mut [u64], src: &[u64], u: &[u64], tw: &[u64], w: usize, i: usize)
    requires { (w ≤ length dst.old) × (w ≤ length src.now) × (w ≤ length u.now) × (i * w + w ≤ length tw.now) }
    ensures { dst.new ≡ packed w (λ t. (member src.now t && not (member u.now t)) && has w tw.now i t) dst.old }
{
    for k in 0..w {
        let at = i * w + k;
        dst[k] = (src[k] & !u[k]) & tw[at];
    }
}

// The first w words of dst become the types of src that are not in block i.
pub fn omit(dst: &mut [u64], src: &[u64], tw: &[u64], w: usize, i: usize)
    requires { (w ≤ length dst.old) × (w ≤ length src.now) × (i * w + w ≤ length tw.now) }
    ensures { dst.new ≡ packed w (λ t. member src.now t && not (has w tw.now i t)) dst.old }
{
    for k in 0..w {
        let at = i * w + k;
        dst[k] = src[k] & !tw[at];
    }
}

// Whether a type of block i is in a and in b.
pub fn meet(a: &[u64], b: &[u64], tw: &[u64], w: usize, i: usize) -> bool
    requires { (w ≤ length a.now) × (w ≤ length b.now) × (i * w + w ≤ length tw.now) }
    ensures { result ≡ any_below (w * 64) (λ t. (member a.now t && member b.now t) && has w tw.now i t) }
{
    let mut any: u64 = 0;
    for k in 0..w {
        let at = i * w + k;
        any |= (a[k] & b[k]) & tw[at];
    }
    any != 0
}

// The types of block i that are not in u leave dst: whether there were any in it.
pub fn release(dst: &mut [u64], tw: &[u64], w: usize, i: usize, u: &[u64]) -> bool
    requires { (w ≤ length dst.old) × (w ≤ length u.now) × (i * w + w ≤ length tw.now) }
    ensures dst_after { dst.new ≡ packed w (λ t. member dst.old t && not (has w tw.now i t && not (member u.now t))) dst.old }
    ensures value { result ≡ any_below (w * 64) (λ t. member dst.old t && (has w tw.now i t && not (member u.now t))) }
{
    let mut any: u64 = 0;
    for k in 0..w {
        let at = i * w + k;
        let x = tw[at] & !u[k];
        let y = dst[k];
        dst[k] = y & !x;
        any |= y & x;
    }
    any != 0
}
