// One text's trial: it is read, written again if it could be read, and then what came of it is printed.
ghost use Rattle.std.specs.Prelude.{◌≡◌};
ghost use Rattle.texts.specs.Rounds.{wrote_by, Tried};

use crate::slices::{all_bytes, entries_clear, nodes_clear};
use script::table::LentTable;
use script::{Refusal, Script};
use std::io;
use trial::{say_either, say_refusal};

// What the table and the entries hold before a reading: no place of it is `false`, no entry 0.
const STALE: u32 = 7;

// What the writer's output holds before a writing.
const BLANK: u8 = b'.';

// What came of a text that could be read: its counts, and the answer of its writing.
#[derive(Clone, Copy)]
pub struct Round {
    pub script: Script,
    pub wrote: Result<usize, Refusal>,
}

// Prints whether the places after these counts hold what reading leaves in unused places.
fn say_clean(rt: &impl Print, table: &[u32], entries: &[u32], used: Script) -> io::Result<()> {
    let clear = nodes_clear(table, used.nodes) && entries_clear(entries, used.entries);
    say_either(rt, clear, b"clean", b"dirty")
}

// Prints whether the output from `from` on is as it was.
fn say_kept(rt: &impl Print, out: &[u8], from: usize) -> io::Result<()> {
    let kept = out.get(from..).is_some_and(|rest| all_bytes(rest, BLANK));
    say_either(rt, kept, b"kept", b"touched")
}

// Prints whether the output begins with a text of this length, and it is `text`.
fn say_same(rt: &impl Print, text: &[u8], out: &[u8], length: usize) -> io::Result<()> {
    say_either(rt, out.get(..length) == Some(text), b"same", b"differs")
}

// Writes a table that was read.
fn try_writer(lent: &LentTable<u32>, out: &mut [u8]) -> Result<usize, Refusal>
    ensures { out.new ≡ wrote_by lent.now.table.now lent.now.nodes lent.now.entries.now lent.now.entry_count out.old }
{
    out.fill(BLANK);
    call_texts::write(lent, out)
}

// Prints what came of the writing of what was read from `text`.
fn say_wrote(
    rt: &impl Print,
    text: &[u8],
    out: &[u8],
    answer: Result<usize, Refusal>,
) -> io::Result<()> {
    print!(rt; "\t")?;
    match answer {
        Ok(length) => {
            print!(rt; "wrote\t{length}")?;
            say_same(rt, text, out, length)?;
            say_kept(rt, out, length)
        }
        Err(r) => {
            say_refusal(rt, r)?;
            say_kept(rt, out, 0)
        }
    }
}

// Reads a text into a table that holds other numbers, and goes on to the writer.
pub fn try_text(
    text: &[u8],
    table: &mut [u32],
    entries: &mut [u32],
    out: &mut [u8],
) -> Result<Round, Refusal>
    ensures { Tried text.now table.old entries.old out.old table.new entries.new out.new }
{
    table.fill(STALE);
    entries.fill(STALE);
    let script = call_texts::read(text, table, entries)?;
    let lent = LentTable {
        table,
        nodes: script.nodes,
        entries,
        entry_count: script.entries,
    };
    let wrote = try_writer(&lent, out);
    Ok(Round { script, wrote })
}

// Prints what came of a text. The line is left open.
pub fn say_text(
    rt: &impl Print,
    text: &[u8],
    table: &[u32],
    entries: &[u32],
    out: &[u8],
    round: Result<Round, Refusal>,
) -> io::Result<()> {
    match round {
        Ok(Round { script, wrote }) => {
            print!(rt; "read\t{}\t{}", script.nodes, script.entries)?;
            say_clean(rt, table, entries, script)?;
            say_wrote(rt, text, out, wrote)
        }
        Err(why) => {
            say_refusal(rt, why)?;
            say_clean(rt, table, entries, Script::empty())
        }
    }
}
