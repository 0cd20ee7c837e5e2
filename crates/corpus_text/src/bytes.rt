// Bytes in a fixed store, as many as have come, up to the store's end.
ghost use Rattle.std.specs.Prelude.{◌≡◌, ℕ, ◌≤◌, ◌<◌, List, [], ◌∷◌, ◌++◌, length, take, true, false};

use std::marker::Model;

// The first `len` bytes of the store. Kept, with a length beside an array: a rule of the project, no heap.
#[derive(Drop)]
pub struct Bytes<const N: usize> {
    store: [u8; N],
    len: usize,
}

// Clauses see the bytes that have come.
impl<const N: usize> Model for Bytes<N> {
    ghost Value = { List ℕ };

    ghost view = { λ b. take b.len b.store };

    ghost invariant = { λ b. b.len ≤ N };
}

impl<const N: usize> Bytes<N> {
    pub fn new() -> Self
        ensures { result ≡ [] }
    {
        Bytes {
            store: [0; N],
            len: 0,
        }
    }

    pub fn as_slice(&self) -> &[u8]
        ensures { result.now ≡ self.now }
    {
        &self.store[..self.len]
    }

    pub fn clear(&mut self)
        ensures { self.new ≡ [] }
    {
        self.len = 0;
    }

    // Adds a byte where there is room, and says whether there was.
    pub fn push(&mut self, b: u8) -> bool
        ensures room { length self.old < N → (result ≡ true) × (self.new ≡ self.old ++ b ∷ []) }
        ensures full { N ≤ length self.old → (result ≡ false) × (self.new ≡ self.old) }
    {
        if self.len == N {
            return false;
        }
        self.store[self.len] = b;
        self.len += 1;
        true
    }
}
