// What the programs that try the other crates share: the headers, names and texts in their input, and what they print. `given` has lines of bytes.
#![tactic(auto)]

ghost use Rattle.std.specs.Prelude.{◌≡◌, ◌≤◌, length, IfOk};
ghost use Rattle.trial.specs.Numbers.{digit_of, number_at, header_at};
ghost use Rattle.trial.specs.Places.{name_end, text_end};
ghost use Rattle.trial.specs.Trials.{Trials};

pub mod given;

use script::Refusal;
use std::io;
use std::io::Read;

// What a frame's header says: two numbers, and where its name starts.
#[derive(Clone, Copy)]
pub struct Header {
    pub first: usize,
    pub second: usize,
    pub name: usize,
}

// The decimal digit that a byte spells.
#[tactic(auto, unfolding(crate::specs::Numbers::digit_of))]
fn digit(b: u8) -> Option<usize>
    ensures { result ≡ digit_of b }
{
    if b.is_ascii_digit() {
        return Some(usize::from(b - b'0'));
    }
    None
}

// The number at `at`, of one digit or more and at most 9999999, with the byte `stop` after it, and the place after that byte.
#[tactic(auto, using(crate::specs::Numbers::Laws::number_steps))]
pub fn number_until(input: &[u8], at: usize, stop: u8) -> Option<(usize, usize)>
    ensures { result ≡ number_at stop input.now at }
{
    if *input.get(at)? == stop {
        return None;
    }
    let mut value = 0;
    for i in at..input.len() {
        let b = input[i];
        if b == stop {
            return Some((value, i + 1));
        }
        let d = digit(b)?;
        if 999999 < value {
            return None;
        }
        value = value * 10 + d;
    }
    None
}

// The header at `at`: two numbers, each with a tab after it, and the place of the name.
#[tactic(auto, using(crate::specs::Numbers::Laws::header_steps))]
pub fn header_at(input: &[u8], at: usize) -> Option<Header>
    ensures { result ≡ header_at input.now at }
{
    let (first, next) = number_until(input, at, b'\t')?;
    let (second, name) = number_until(input, next, b'\t')?;
    Some(Header {
        first,
        second,
        name,
    })
}

// The place of the LF after the name at `at`; none if there is no LF, no name, or a byte below the blank in it, as a tab.
#[tactic(auto, using(crate::specs::Places::Laws::name_steps))]
pub fn name_end(input: &[u8], at: usize) -> Option<usize>
    ensures { result ≡ name_end input.now at }
{
    for i in at..input.len() {
        let b = input[i];
        if b == b'\n' && at < i {
            return Some(i);
        }
        if b < b' ' {
            return None;
        }
    }
    None
}

// The end of the text at `at`: where the first empty line stands from there on.
#[tactic(auto, using(crate::specs::Places::Laws::text_steps))]
pub fn text_end(input: &[u8], at: usize) -> Option<usize>
    ensures { result ≡ text_end input.now at }
{
    let mut starts = true;
    for i in at..input.len() {
        let ends = input[i] == b'\n';
        if starts && ends {
            return Some(i);
        }
        starts = ends;
    }
    None
}

// Reads until the bytes are full or the input ends, and says how many were read.
pub fn read_full(from: &mut impl Read, into: &mut [u8]) -> io::Result<usize>
    ensures { IfOk result (λ n. n ≤ length into.old) }
{
    let (count, read) = full_reads::read_full(from, into);
    read?;
    Ok(count)
}

// Tries all in turn, each by `try_at` at its place, which answers where the next one starts. A malformed one, for which it answers none, ends it.
pub fn try_all<S, F: Fn(&mut S, usize) -> io::Result<Option<usize>>>(
    rt: &impl Print,
    input: &[u8],
    state: &mut S,
    try_at: F,
) -> io::Result<()>
    requires { F.IsAlwaysCallable try_at }
    ensures { Trials F.Fn try_at (length input.now) state.old result state.new }
{
    let mut at = 0;
    while at < input.len() {
        match try_at(state, at)? {
            Some(next) if at < next => at = next,
            _ => return print!(rt; "malformed\n"),
        }
    }
    Ok(())
}

// Prints bytes.
pub fn say(rt: &impl Print, s: &[u8]) -> io::Result<()> {
    rt.write_all(s)
}

// Prints one of two words, after a tab.
pub fn say_either(rt: &impl Print, first: bool, a: &[u8], b: &[u8]) -> io::Result<()> {
    say(rt, b"\t")?;
    say(rt, if first { a } else { b })
}

// Prints a refusal: the word, its number, its place or `-`.
pub fn say_refusal(rt: &impl Print, r: Refusal) -> io::Result<()> {
    print!(rt; "refused\t{}\t", r.number())?;
    match r.place() {
        Some(i) => print!(rt; "{i}"),
        None => print!(rt; "-"),
    }
}

// Prints a type by its code: a letter r for each 2, then i or b.
fn say_type(rt: &impl Print, code: u32) -> io::Result<()> {
    for _ in 0..code / 2 {
        print!(rt; "r")?;
    }
    print!(rt; "{}", if code % 2 == 0 { "i" } else { "b" })
}

// Prints the checker's answer.
pub fn say_checked(rt: &impl Print, answer: Result<u32, Refusal>) -> io::Result<()> {
    match answer {
        Ok(code) => {
            print!(rt; "accepted\t")?;
            say_type(rt, code)
        }
        Err(r) => say_refusal(rt, r),
    }
}
