// One run: the text is read, the script run, and what came of it printed.
ghost use Rattle.std.specs.Prelude.{◌≡◌};
ghost use Rattle.rules.specs.Running.{run_table};
ghost use Rattle.call_texts.specs.Tables.{flat_by};
ghost use Rattle.runs.specs.Outcome.{cells_after};

use script::table::{LentTable, WIDTH};
use script::{Ended, Refusal, Script};
use std::io;
use trial::{say_either, say_refusal};

// Prints a cell: its kind, a colon, and its bits.
fn say_cell(rt: &impl Print, cell: &[u8; 5]) -> io::Result<()> {
    let [kind, a, b, c, d] = *cell;
    let bits = u32::from_le_bytes([a, b, c, d]);
    print!(rt; "{kind}:{bits}")
}

// Prints the first `count` cells after a tab, parted by blanks: `-` if there is none, `?` if they are not lent.
fn say_cells(rt: &impl Print, cells: &[u8], count: usize) -> io::Result<()> {
    if count == 0 {
        return print!(rt; "\t-");
    }
    let (cells, _) = cells.as_chunks::<5>();
    if cells.len() < count {
        return print!(rt; "\t?");
    }
    print!(rt; "\t")?;
    say_cell(rt, &cells[0])?;
    for cell in &cells[1..count] {
        print!(rt; " ")?;
        say_cell(rt, cell)?;
    }
    Ok(())
}

// Prints whether the lent bytes from `from` on are as they were.
fn say_kept(rt: &impl Print, before: &[u8], cells: &[u8], from: usize) -> io::Result<()> {
    let kept = before
        .get(from..)
        .is_some_and(|rest| cells.get(from..) == Some(rest));
    say_either(rt, kept, b"kept", b"touched")
}

// Prints a used count, the used cells, and whether those after them are as they were.
fn say_after(rt: &impl Print, before: &[u8], cells: &[u8], used: u32) -> io::Result<()> {
    let count = used as usize;
    print!(rt; "\t{used}")?;
    say_cells(rt, cells, count)?;
    say_kept(rt, before, cells, 5 * count)
}

// Prints what came of a run, on cells that held what `before` holds.
fn say_ran(
    rt: &impl Print,
    before: &[u8],
    cells: &[u8],
    answer: Result<Ended, Refusal>,
) -> io::Result<()> {
    match answer {
        Ok(Ended::Gave(v, now)) => {
            print!(rt; "value\t{}\t{}", v.kind(), v.bits())?;
            say_after(rt, before, cells, now)
        }
        Ok(Ended::Failed(node, now)) => {
            print!(rt; "error\t{node}")?;
            say_after(rt, before, cells, now)
        }
        Err(r) => {
            say_refusal(rt, r)?;
            say_kept(rt, before, cells, 0)
        }
    }
}

// Prints why a text could not be read, so that nothing was run.
fn say_unread(rt: &impl Print, why: Refusal) -> io::Result<()> {
    say_refusal(rt, why)?;
    print!(rt; "\tunread")
}

// Reads a text, and runs it if it could be read. The line is left open. Whether the printing fails or not, the cells hold what the run leaves.
pub fn try_text(
    rt: &impl Print,
    text: &[u8],
    values: &[u8],
    before: &[u8],
    cells: &mut [u8],
    used: u32,
) -> io::Result<()>
    ensures { cells.new ≡ cells_after text.now values.now cells.old used }
{
    let mut table = [0u32; WIDTH * Script::NODES];
    let mut entries = [0u32; 16];
    match call_texts::read(text, &mut table, &mut entries) {
        Ok(script) => {
            let lent = LentTable {
                table: &table,
                nodes: script.nodes,
                entries: &entries,
                entry_count: script.entries,
            };
            let answer = calls::run(&lent, values, cells, used);
            say_ran(rt, before, cells, answer)
        }
        Err(why) => say_unread(rt, why),
    }
}
