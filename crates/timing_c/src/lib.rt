// The exports of `timing`, for the program `bench`.
#![tactic(auto)]

ghost use Rattle.std.specs.Prelude.{◌≡◌};
ghost use Rattle.script.specs.Flat.{nodes_in, table_in};
ghost use Rattle.text.specs.Reading.{reading_in};
ghost use Rattle.text.specs.Writing.{writing};
ghost use Rattle.timing.specs.Answers.{ReadTo, WroteTo, wrong_use};

// Reads a text into a lent table and lent entries: how many nodes it has; 0 if it is refused.
#[unsafe(no_mangle)]
pub extern "C" fn timing_read(text: &[u8], table: &mut [u32], entries: &mut [u32]) -> u64
    ensures { ReadTo (reading_in text.now table.old entries.old) result table.new entries.new }
{
    timing::timing_read(text, table, entries)
}

// Writes the text of a table into lent bytes: its length; 0 if the table is refused or the bytes are too few.
#[unsafe(no_mangle)]
pub extern "C" fn timing_write(
    table: &[u32],
    nodes: usize,
    entries: &[u32],
    entry_count: usize,
    out: &mut [u8],
) -> u64
    ensures { WroteTo (writing (table_in table.now nodes entries.now entry_count) out.old) result out.new }
{
    timing::timing_write(table, nodes, entries, entry_count, out)
}

// Test 5 alone, of the first `nodes` nodes of a table: one more than the node that it names; 0 if it names none, or if there are not so many nodes.
#[unsafe(no_mangle)]
pub extern "C" fn timing_uses(table: &[u32], nodes: usize) -> u64
    ensures { result ≡ wrong_use (nodes_in table.now) nodes }
{
    timing::timing_uses(table, nodes)
}
