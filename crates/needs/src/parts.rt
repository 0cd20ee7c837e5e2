// A need in one word: the parts that it has besides those of a closure member's word. Assumes nothing.
ghost use Rattle.std.specs.Prelude.{◌≡◌};
ghost use Rattle.needs.specs.NeedWords.{mode_w, whole_w};

use members::parts::arg;

// The block of the types that have the need.
pub fn whole(x: u64) -> usize
    ensures { result ≡ whole_w x }
{
    (x / 68719476736 % 256) as usize
}

// The mode of an EX over one mode.
pub fn mode(x: u64) -> usize
    ensures { result ≡ mode_w x }
{
    arg(x).trailing_zeros() as usize
}
