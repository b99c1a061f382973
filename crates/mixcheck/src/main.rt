// Reads a script's text from standard input, checks it, and prints one line: `accepted` and its type, or `refused`, a number, and a place or `-`.
#![tactic(auto)]

mod line;

use full_reads::read_full;
use script::Script;
use std::io;

fn main(rt: HostRuntime) -> io::Result<()> {
    // one byte more than a text may have tells that it is too long
    let mut input = [0u8; Script::BYTES + 1];
    // an input that cannot be read ends there
    let (n, _) = read_full(&mut rt.stdin(), &mut input);
    let mut out = [0u8; line::MOST];
    let length = line::put_line(&input[..n], &mut out);
    rt.write_all(&out[..length])
}
