// Decimal numbers of a line: digits without a sign, up to a space or the line's end; and two of them with a slash between.
ghost use Rattle.std.specs.Prelude.{◌+◌, ◌≤◌, ◌<◌, length, IfSome};

// A word of a line, up to a space or the line's end, and the place behind that space: past the line's end where nothing is left.
#[derive(Clone, Copy)]
struct Word<'a> {
    text: &'a [u8],
    next: usize,
}

// A number, and the place behind the word.
#[derive(Clone, Copy)]
pub struct Number {
    pub value: u64,
    pub next: usize,
}

// Two numbers, and the place behind their word.
#[derive(Clone, Copy)]
pub struct Pair {
    pub first: u64,
    pub second: u64,
    pub next: usize,
}

// The word that begins at a place of the line, unless the line has ended before.
fn word_at(line: &[u8], at: usize) -> Option<Word<'_>>
    ensures { IfSome result (λ word. (0 < word.next) × (word.next ≤ length line.now + 1)) }
{
    if line.len() < at {
        return None;
    }
    let end = layout::end_of(b' ', line, at);
    Some(Word {
        text: &line[at..end],
        next: end + 1,
    })
}

// One digit more, if it is one, and the number fits.
fn with_digit(sofar: u64, b: u8) -> Option<u64> {
    if !b.is_ascii_digit() {
        return None;
    }
    sofar.checked_mul(10)?.checked_add(u64::from(b - b'0'))
}

// The number that a text stands for; none that is empty.
fn number_of(text: &[u8]) -> Option<u64> {
    if text.is_empty() {
        return None;
    }
    let mut sofar = 0;
    for &b in text {
        sofar = with_digit(sofar, b)?;
    }
    Some(sofar)
}

// The number that begins at a place of the line.
pub fn number_at(line: &[u8], at: usize) -> Option<Number>
    ensures { IfSome result (λ number. (0 < number.next) × (number.next ≤ length line.now + 1)) }
{
    let word = word_at(line, at)?;
    Some(Number {
        value: number_of(word.text)?,
        next: word.next,
    })
}

// The N numbers that the line has from a place on, up to its end.
pub fn numbers_at<const N: usize>(line: &[u8], at: usize) -> Option<[u64; N]> {
    let mut numbers = [0; N];
    let mut next = at;
    for place in &mut numbers {
        let number = number_at(line, next)?;
        *place = number.value;
        next = number.next;
    }
    (line.len() < next).then_some(numbers)
}

// The word that begins at a place of the line has a slash.
pub fn has_slash(line: &[u8], at: usize) -> bool {
    word_at(line, at).is_some_and(|word| word.text.contains(&b'/'))
}

// The two numbers of the word that begins at a place of the line: before its first slash, and behind it.
pub fn pair_at(line: &[u8], at: usize) -> Option<Pair> {
    let word = word_at(line, at)?;
    let slash = word.text.iter().position(|&b| b == b'/')?;
    Some(Pair {
        first: number_of(&word.text[..slash])?,
        second: number_of(&word.text[slash + 1..])?,
        next: word.next,
    })
}

// A length, at most that of the array that a store is a part of: every longer store is answered alike.
pub fn at_most(length: u64, most: usize) -> usize
    ensures { result ≤ most }
{
    most.min(length as usize)
}
