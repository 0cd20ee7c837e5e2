// What the elimination works on, all that depends on the sheet alone: rounds go by its words, and a naming's table by the sheet. Assumes nothing.

// What rounds go by: how many words hold the types, the truth words, the condition words and the needs.
#[derive(Clone, Copy)]
pub struct Words<'a> {
    pub w: usize,
    pub tw: &'a [u64],
    pub cw: &'a [u64],
    pub ns: &'a [u64],
}

// What a naming's table is made from: the closure's members with the values that do not occur, the lean by their places, the names' places in it, the words, and the types that may be
// start types, by whether they have a name.
#[derive(Clone, Copy)]
pub struct Sheet<'a> {
    pub ms: &'a [u64],
    pub ln: &'a [u8],
    pub names: &'a [u8],
    pub base: &'a [u64],
    pub words: Words<'a>,
}
