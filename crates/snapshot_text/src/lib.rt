// The lines of a snapshot's text, read byte by byte into a store of entries: the entry of symbol k at node i is at place 8 * i + k. Assumes nothing.
#![tactic(auto)]

ghost use Rattle.std.specs.Prelude.{◌≡◌, ◌≤◌, length, get_or, set, drop};
ghost use Rattle.snapshot_text.specs.Lines.{state_of, start_state, bad_state, space_step, newline_step, digit_step, byte_step, Inside, run, starts, ended, line_count, line_store};

// The reader between two bytes: the node and the symbol whose entry it reads, and that entry's digits so far: how many (3 for text that is
// refused) and their value.
#[derive(Clone, Copy)]
struct State {
    node: usize,
    symbol: usize,
    digits: usize,
    value: u8,
}

// v at a place of the store, if there is such a place.
fn put(out: &mut [u8], at: usize, v: u8)
    ensures { out.new ≡ set out.old at v }
{
    if at < out.len() {
        out[at] = v;
    }
}

// After text that is refused: no byte leads on from here.
// Not None: `line_store` says what the store holds behind a refused byte, so the reader goes on from this state.
fn bad_state() -> State
    ensures { result ≡ bad_state }
{
    State {
        node: 0,
        symbol: 0,
        digits: 3,
        value: 0,
    }
}

// After a space, which ends an entry that is not the line's last.
fn space_step(m: usize, st: State) -> State
    requires { (m ≤ 8) × Inside st }
    ensures { result ≡ space_step m st }
{
    if st.digits == 0 || 2 < st.digits || m <= st.symbol + 1 {
        return bad_state();
    }
    State {
        symbol: st.symbol + 1,
        digits: 0,
        value: 0,
        ..st
    }
}

// After a newline, which ends the line's last entry.
fn newline_step(m: usize, st: State) -> State
    requires { (m ≤ 8) × Inside st }
    ensures { result ≡ newline_step m st }
{
    if st.digits == 0 || 2 < st.digits || st.symbol + 1 != m {
        return bad_state();
    }
    State {
        node: st.node + 1,
        symbol: 0,
        digits: 0,
        value: 0,
    }
}

// After any other byte: a digit of an entry on one of 16 lines, a second one only after 1 to 9.
fn digit_step(st: State, b: u8) -> State
    ensures { result ≡ digit_step st b }
{
    if 15 < st.node || !b.is_ascii_digit() {
        return bad_state();
    }
    let digit = b - b'0';
    match (st.digits, st.value) {
        (0, _) => State {
            digits: 1,
            value: digit,
            ..st
        },
        (1, 1..=9) => State {
            digits: 2,
            value: st.value * 10 + digit,
            ..st
        },
        _ => bad_state(),
    }
}

#[tactic(auto, unfolding(crate::specs::Lines::byte_step))]
fn byte_step(m: usize, st: State, b: u8) -> State
    requires { (m ≤ 8) × Inside st }
    ensures { result ≡ byte_step m st b }
{
    match b {
        b' ' => space_step(m, st),
        b'\n' => newline_step(m, st),
        _ => digit_step(st, b),
    }
}

// The bytes from a place on, of lines with m entries each: the state after them, with the entries in the store.
fn run_from(m: usize, s: &[u8], at: usize, out: &mut [u8]) -> State
    requires { (m ≤ 8) × (at ≤ length s.now) }
    ensures { (run m start_state out.old (drop at s.now) ≡ record { state = result; store = out.new }) × Inside result }
{
    let mut st = State {
        node: 0,
        symbol: 0,
        digits: 0,
        value: 0,
    };
    for &b in &s[at..] {
        put(out, st.node * 8 + st.symbol, st.value);
        st = byte_step(m, st, b);
    }
    st
}

// Whether the text begins with line 1 and a newline.
fn begins(line: &[u8], s: &[u8]) -> bool
    ensures { result ≡ starts line.now s.now }
{
    s.starts_with(line) && s.get(line.len()) == Some(&b'\n')
}

// The node count of a state at the end of a line, 0 of any other.
fn ended(st: State) -> usize
    ensures { result ≡ ended st }
{
    match st {
        State {
            node,
            symbol: 0,
            digits: 0,
            ..
        } => node,
        _ => 0,
    }
}

// The text's node count, 0 for text that is no snapshot's, with the entries in the store.
// Kept as a number: a text of line 1 alone has the count 0 too, and is as wrong; and `line_count` is what the theorems of other crates name.
#[tactic(auto, using(crate::proofs::ReadLaws::starts_long, crate::proofs::ReadLaws::ended_few), unfolding(crate::specs::Lines::line_count, crate::specs::Lines::line_store))]
pub fn lines(line: &[u8], m: usize, s: &[u8], out: &mut [u8]) -> usize
    requires { m ≤ 8 }
    ensures { (result ≡ line_count line.now m s.now out.old)
        × ((out.new ≡ line_store line.now m s.now out.old) × (result ≤ 16)) }
{
    if 1024 < s.len() {
        return 0;
    }
    if !begins(line, s) {
        return 0;
    }
    ended(run_from(m, s, line.len() + 1, out))
}
