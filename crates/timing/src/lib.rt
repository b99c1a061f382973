// Reading and writing of script text and test 5 of a table, each answered by one number, for the program `bench`, which times them from outside, by what
// `timing_c` exports. Hosts have no use for this library: their calls are those of `host`.
#![tactic(auto)]

ghost use Rattle.std.specs.Prelude.{◌≡◌};
ghost use Rattle.script.specs.Flat.{nodes_in, table_in};
ghost use Rattle.text.specs.Reading.{reading_in};
ghost use Rattle.text.specs.Writing.{writing};
ghost use Rattle.timing.specs.Answers.{ReadTo, WroteTo, wrong_use};

use script::Script;
use script::table::{LentTable, WIDTH};
use uses::walk;

// Reads a text into a lent table and lent entries: how many nodes it has; 0 if it is refused.
pub fn timing_read(text: &[u8], table: &mut [u32], entries: &mut [u32]) -> u64
    ensures { ReadTo (reading_in text.now table.old entries.old) result table.new entries.new }
{
    let Ok(script) = reader::read(text, table, entries) else {
        return 0;
    };
    script.nodes as u64
}

// Writes the text of a table into lent bytes: its length; 0 if the table is refused or the bytes are too few.
pub fn timing_write(
    table: &[u32],
    nodes: usize,
    entries: &[u32],
    entry_count: usize,
    out: &mut [u8],
) -> u64
    ensures { WroteTo (writing (table_in table.now nodes entries.now entry_count) out.old) result out.new }
{
    let lent = LentTable {
        table,
        nodes,
        entries,
        entry_count,
    };
    match writer::write(&lent, out) {
        Ok(length) => length as u64,
        Err(_) => 0,
    }
}

// Test 5 alone, of the first `nodes` nodes of a table: one more than the node that it names; 0 if it names none, or if there are not so many nodes.
pub fn timing_uses(table: &[u32], nodes: usize) -> u64
    ensures { result ≡ wrong_use (nodes_in table.now) nodes }
{
    if Script::NODES < nodes {
        return 0;
    }
    if table.len() / WIDTH < nodes {
        return 0;
    }
    let after = walk(table, nodes);
    match after.wrong {
        Some(i) => i as u64 + 1,
        None => 0,
    }
}
