// The refusals 1 and 2: how many bytes there are, and which. Assumes nothing.
ghost use Rattle.std.specs.Prelude.{◌≡◌};
ghost use Rattle.layout.specs.Layout.{parts, any_long, length_wrong, byte_right, byte_wrong};

use crate::text::end_of;

// A line, or the bytes after the last newline, has over 200 bytes. Most sheets are short: with at most 200 bytes they have no such line.
pub fn any_long(s: &[u8]) -> bool
    ensures { result ≡ any_long (parts s.now) }
{
    if s.len() <= 200 {
        return false;
    }
    let mut at = 0;
    while at < s.len() {
        let e = end_of(b'\n', s, at);
        if s.len() <= e {
            return 200 < e - at;
        }
        if 200 < e - at {
            return true;
        }
        at = e + 1;
    }
    false
}

// 1: the sheet is empty, over 1,024 bytes, or has a line over 200.
pub fn length_wrong(s: &[u8]) -> bool
    ensures { result ≡ length_wrong s.now }
{
    let n = s.len();
    if n == 0 {
        return true;
    }
    if 1024 < n {
        return true;
    }
    any_long(s)
}

// A byte is printable or a newline.
pub fn byte_right(b: u8) -> bool
    ensures { result ≡ byte_right b }
{
    b == b'\n' || (b' ' <= b && b <= b'~')
}

// 2: a byte that is neither printable nor a newline.
pub fn byte_wrong(s: &[u8]) -> bool
    ensures { result ≡ byte_wrong s.now }
{
    s.iter().any(|&b| !byte_right(b))
}
