// The stores that an operation is lent: each is filled with a pattern before the call, and outside the part that the operation promises to write the pattern must
// be there after it.

// What a store's elements are before a call, each from the one before it.
pub trait Pattern: Copy + Eq {
    fn first() -> Self;

    fn next(self) -> Self;
}

// The pattern of a store of words: an odd number's multiples, from the first on.
const STEP: u64 = 0x9E3779B97F4A7C15;

impl Pattern for u64 {
    fn first() -> u64 {
        STEP
    }

    fn next(self) -> u64 {
        self.wrapping_add(STEP)
    }
}

// The pattern of a store of 16-bit numbers goes through these in turn; none is a type.
const LOWEST: u16 = 0x5A00;

const HIGHEST: u16 = 0x7A00;

impl Pattern for u16 {
    fn first() -> u16 {
        LOWEST
    }

    fn next(self) -> u16 {
        if self < HIGHEST { self + 1 } else { LOWEST }
    }
}

// The pattern of a row of bytes: an odd number's multiples too, of which none of the first 64 says anything of a node.
const BYTE_STEP: u8 = 0xFD;

impl Pattern for u8 {
    fn first() -> u8 {
        BYTE_STEP
    }

    fn next(self) -> u8 {
        self.wrapping_add(BYTE_STEP)
    }
}

pub fn fill<T: Pattern>(store: &mut [T]) {
    let mut element = T::first();
    for place in store {
        *place = element;
        element = element.next();
    }
}

// The elements from a place on are the pattern's.
pub fn kept<T: Pattern>(store: &[T], from: usize) -> bool {
    let mut element = T::first();
    for (i, &found) in store.iter().enumerate() {
        if found != element && from <= i {
            return false;
        }
        element = element.next();
    }
    true
}

// Two stores have the same first n words.
pub fn same_words(first: &[u64], second: &[u64], n: usize) -> bool {
    n <= first.len() && n <= second.len() && first[..n] == second[..n]
}
