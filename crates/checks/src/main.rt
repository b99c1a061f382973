// Tries the checker on stored scripts, and prints a line for each.
//
// A script is three parts of the input, made to be read and edited:
// - a line with its name, which tells what is tried;
// - its text;
// - an empty line.
// A malformed one ends the trial.
//
// Its line has fields parted by tabs: the name, then `accepted` and the letters of the type, or `refused`, number, and place or `-`.
#![tactic(auto)]

use script::Script;
use script::table::{LentTable, WIDTH};
use std::io;
use trial::{name_end, read_full, say, say_checked, text_end, try_all};

// Reads a text, checks it if it could be read, and prints what came of it. The line is left open.
fn try_text(rt: &impl Print, text: &[u8]) -> io::Result<()> {
    let mut table = [0u32; WIDTH * Script::NODES];
    let mut entries = [0u32; Script::ENTRIES];
    let checked = call_texts::read(text, &mut table, &mut entries).and_then(|script| {
        calls::check(&LentTable {
            table: &table,
            nodes: script.nodes,
            entries: &entries,
            entry_count: script.entries,
        })
    });
    say_checked(rt, checked)
}

// Tries the script at `at`, and answers where the next one starts; none after a malformed one.
#[tactic(auto, using(trial::specs::Given::Laws::found))]
fn try_script(rt: &impl Print, input: &[u8], at: usize) -> io::Result<Option<usize>> {
    let Some(stop) = name_end(input, at) else {
        return Ok(None);
    };
    let from = stop + 1;
    let Some(end) = text_end(input, from) else {
        return Ok(None);
    };
    say(rt, &input[at..stop])?;
    print!(rt; "\t")?;
    try_text(rt, &input[from..end])?;
    print!(rt; "\n")?;
    Ok(Some(end + 1))
}

fn main(rt: HostRuntime) -> io::Result<()> {
    let mut input = [0u8; 262144];
    let n = read_full(&mut rt.stdin(), &mut input)?;
    let input = &input[..n];
    try_all(&rt, input, &mut (), |_, at| try_script(&rt, input, at))
}
