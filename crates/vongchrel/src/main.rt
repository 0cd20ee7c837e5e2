// Reads a sheet on standard input, to its end, and prints a line for each of its namings and the verdict, or its refusal. With the word `clean` as its first argument it prints the
// sheet written clean, or its refusal. Two numbers behind that are the limits of the lean and of the closure; without them they are document 01's. Any other arguments are refused
// as limits out of their range are.
#![tactic(auto)]

ghost use Rattle.std.specs.Prelude.{◌≤◌, length, IfSome};

use limits::Limits;
use std::env::{Env, FillError};
use std::io::{Read, Stdin};

// An argument, read into `word`; none where there is no such argument, or a longer one.
fn argument<'a>(env: &impl Env, i: usize, word: &'a mut [u8]) -> Option<&'a [u8]>
    ensures { IfSome result (λ text. length text.now ≤ length word.old) }
{
    let n = env.arg(i, word).ok()?;
    Some(&word[..n])
}

// How many arguments there are, the program's own name among them.
fn argument_count(env: &impl Env) -> usize {
    for i in 0..usize::MAX {
        let mut byte = [0u8; 1];
        if let Err(FillError::NotPresent) = env.arg(i, &mut byte) {
            return i;
        }
    }
    usize::MAX
}

// Whether the first argument is the word `clean`.
fn cleaning(env: &impl Env) -> bool {
    let mut word = [0u8; 8];
    matches!(argument(env, 1, &mut word), Some(b"clean"))
}

// A number with one digit more, if it is one, and the number fits.
fn longer(v: usize, b: u8) -> Option<usize> {
    if !b.is_ascii_digit() {
        return None;
    }
    v.checked_mul(10)?.checked_add(usize::from(b - b'0'))
}

// The number that a word spells; none that is empty.
fn number(word: &[u8]) -> Option<usize> {
    if word.is_empty() {
        return None;
    }
    let mut v = 0;
    for &b in word {
        v = longer(v, b)?;
    }
    Some(v)
}

fn limit_at(env: &impl Env, i: usize) -> Option<usize> {
    let mut word = [0u8; 16];
    number(argument(env, i, &mut word)?)
}

// Two numbers, the limits of the lean and of the closure.
fn limits_at(env: &impl Env, i: usize) -> Option<Limits> {
    Some(Limits {
        lean: limit_at(env, i)?,
        closure: limit_at(env, i.checked_add(1)?)?,
    })
}

// The limits that the arguments from `first` on give: document 01's without any; for what are not two numbers, limits out of their range.
fn limits_from(env: &impl Env, first: usize) -> Limits {
    let none = Limits {
        lean: 0,
        closure: 0,
    };
    match argument_count(env).saturating_sub(first) {
        0 => limits::usual_limits(),
        2 => limits_at(env, first).unwrap_or(none),
        _ => none,
    }
}

// Reads until the store is full, the input ends or a read fails, and gives how many bytes came.
fn fill(input: &mut Stdin, store: &mut [u8]) -> usize
    ensures { result ≤ length store.new }
{
    let mut done = 0;
    while done < store.len() {
        match input.read(&mut store[done..]) {
            Ok(0) | Err(_) => return done,
            Ok(n) => done += n,
        }
    }
    done
}

// Reads what is left of the input and drops it. Its end is not promised, so the turns are counted, up to a number that no run uses up.
fn drain(input: &mut Stdin) {
    let mut chunk = [0u8; 65536];
    for _ in 0..u64::MAX {
        let Ok(1..) = input.read(&mut chunk) else {
            return;
        };
    }
}

// A sheet that is longer than the store is as wrong as one that just fills it, so what is past its end is only read, that a writer may finish.
fn main(rt: HostRuntime) {
    let mut input = rt.stdin();
    let mut sheet = [0u8; 1025];
    let n = fill(&mut input, &mut sheet);
    if n == 1025 {
        drain(&mut input);
    }
    if cleaning(&rt) {
        report::report_clean(rt.stdout(), limits_from(&rt, 2), &sheet[..n]);
        return;
    }
    report::report(
        rt.stdout(),
        rt.stderr(),
        limits_from(&rt, 1),
        &sheet[..n],
        b"\n",
    );
}
