// The canonical print of a member, put into a buffer behind the bytes that it holds; the answer is how many it holds then. Each byte is written once. Assumes nothing.
ghost use Rattle.std.specs.Prelude.{◌+◌, ◌≤◌, ◌<◌, length, take};
ghost use Rattle.buffer.specs.Put.{Put};
ghost use Rattle.members.specs.Grown.{Ready};
ghost use Rattle.prints.specs.Prints.{pre_by, print_at};

use members::parts::{arg, left, right, tag};
use prints::{mid_byte, pre_byte, pre_len};

// What stands before a member's first operand.
fn put_pre(words: &[u64], t: u64, a: u64, out: &mut [u8], n: usize) -> usize
    requires { (t < 12) × ((a < 65536) × (n + length (pre_by words.now t a) ≤ length out.old)) }
    ensures { Put n (pre_by words.now t a) out.old out.new result }
{
    let h = pre_len(words, t, a);
    for k in 0..h {
        out[n + k] = pre_byte(words, t, a, h, k);
    }
    n + h
}

// The print of member i.
pub fn put_print(tab: &[u64], n: usize, words: &[u64], i: usize, out: &mut [u8], at: usize) -> usize
    requires ready { Ready tab.now n × (i < n) }
    requires i_in_bounds { at + length (print_at words.now (take n tab.now) i) ≤ length out.old }
    ensures { Put at (print_at words.now (take n tab.now) i) out.old out.new result }
{
    let w = tab[i];
    let t = tag(w);
    let at = put_pre(words, t, arg(w), out, at);
    if t < 4 {
        return at;
    }
    let at = put_print(tab, n, words, left(w), out, at);
    if t == 6 || t == 7 {
        return at;
    }
    out[at] = mid_byte(t);
    let at = put_print(tab, n, words, right(w), out, at + 1);
    out[at] = b')';
    at + 1
}
