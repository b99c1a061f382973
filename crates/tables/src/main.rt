// Tries the checker and the writer over records on stored tables, among them such as no text gives, and prints a line for each.
//
// A table is three lines of the input, made to be read and edited:
// - `NODES<tab>ENTRIES<tab>NAME`: the used counts, and a name that tells what is tried;
// - the lent entries, decimal and parted by blanks, or nothing;
// - the numbers of the nodes in flat form, likewise; the numbers after them, up to 130 places, are 0.
// Entries and numbers of nodes are at most 255, and at most 20 entries are lent. A malformed table ends the trial.
//
// Its line has fields parted by tabs: the name, then `accepted` and the letters of the type, or `refused`, number, and place or `-`; then `wrote` and the
// length of the text, or `refused`, number, and place or `-`.
#![tactic(auto)]

ghost use Rattle.std.specs.Prelude.{◌++◌, ◌≡◌, ◌≤◌, length, drop};

use call_texts::PLACES;
use script::table::{LentTable, WIDTH};
use std::io;
use trial::given::bytes_line;
use trial::{Header, header_at, name_end, read_full, say, say_checked, say_refusal, try_all};

// Puts the bytes into the words' first places; the words after them stay.
fn widen(bytes: &[u8], words: &mut [u32])
    requires { length bytes.now ≤ length words.old }
    ensures { words.new ≡ bytes.now ++ drop (length bytes.now) words.old }
{
    for (i, byte) in bytes.iter().enumerate() {
        words[i] = u32::from(*byte);
    }
}

// Checks and writes a table, and prints what came of it. The line is left open.
fn try_table(rt: &impl Print, lent: &LentTable<u32>) -> io::Result<()> {
    let mut out = [0u8; 2288];
    say_checked(rt, calls::check(lent))?;
    print!(rt; "\t")?;
    match call_texts::write(lent, &mut out) {
        Ok(length) => print!(rt; "wrote\t{length}"),
        Err(r) => say_refusal(rt, r),
    }
}

// Tries a table from the line of its entries on, and answers where the next table starts; none after a malformed one.
fn try_given(
    rt: &impl Print,
    input: &[u8],
    at: usize,
    nodes: usize,
    used: usize,
) -> io::Result<Option<usize>> {
    let mut codes = [0u8; 20];
    let mut numbers = [0u8; WIDTH * PLACES];
    let Some((lent, next)) = bytes_line(input, at, &mut codes) else {
        return Ok(None);
    };
    let Some((_, end)) = bytes_line(input, next, &mut numbers) else {
        return Ok(None);
    };
    let mut entries = [0u32; 20];
    let mut table = [0u32; WIDTH * PLACES];
    if entries.len() < lent {
        return Ok(None);
    }
    widen(&codes, &mut entries);
    widen(&numbers, &mut table);
    let given = LentTable {
        table: &table,
        nodes,
        entries: &entries[..lent],
        entry_count: used,
    };
    try_table(rt, &given)?;
    print!(rt; "\n")?;
    Ok(Some(end))
}

// Tries the table at `at`, and answers where the next one starts; none after a malformed one.
#[tactic(auto, using(trial::specs::Given::Laws::found))]
fn try_next(rt: &impl Print, input: &[u8], at: usize) -> io::Result<Option<usize>> {
    let Some(
        Header {
            first: nodes,
            second: used,
            name,
        },
    ) = header_at(input, at)
    else {
        return Ok(None);
    };
    let Some(stop) = name_end(input, name) else {
        return Ok(None);
    };
    say(rt, &input[name..stop])?;
    print!(rt; "\t")?;
    try_given(rt, input, stop + 1, nodes, used)
}

fn main(rt: HostRuntime) -> io::Result<()> {
    let mut input = [0u8; 262144];
    let n = read_full(&mut rt.stdin(), &mut input)?;
    let input = &input[..n];
    try_all(&rt, input, &mut (), |_, at| try_next(&rt, input, at))
}
