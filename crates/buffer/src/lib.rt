// Texts put into a buffer behind the bytes that it holds; the answer is how many it holds then. Assumes nothing.
#![tactic(auto)]

ghost use Rattle.std.specs.Prelude.{◌+◌, ◌≤◌, length};
ghost use Rattle.buffer.specs.Put.{Put};

pub fn put(out: &mut [u8], n: usize, text: &[u8]) -> usize
    requires { n + length text.now ≤ length out.old }
    ensures { Put n text.now out.old out.new result }
{
    // Not `copy_from_slice`, which asks for the C library's memmove.
    let mut at = n;
    for i in 0..text.len() {
        out[at] = text[i];
        at += 1;
    }
    at
}
