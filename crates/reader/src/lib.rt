// The reader: from a text to a lent table in flat form and a lent list of entries.
#![tactic(auto)]

ghost use Rattle.std.specs.Prelude.{[], ◌≡◌, ◌*◌, ◌≤◌, ltb, length, take};
ghost use Rattle.script.specs.Flat.{node_width, nodes_in};
ghost use Rattle.script.specs.Limits.{node_limit, entry_limit, byte_limit};
ghost use Rattle.script.specs.Table.{tree_test};
ghost use Rattle.script.specs.Flat.{FormedNodes};
ghost use Rattle.script.specs.Tests.{need};
ghost use Rattle.script.specs.declared.Refusal.TheVariants.{NoNode};
ghost use Rattle.text.specs.Bytes.{lf};
ghost use Rattle.text.specs.Grammar.{lines_from, parts};
ghost use Rattle.text.specs.Reading.{leaves, reading_in, tried};
ghost use Rattle.text.specs.Code.Steps.{Kept, Took, Holds, entry_step, entry_stored, node_step, node_stored, ended_by};

mod lines;

use lines::line_at;
use script::table::WIDTH;
use script::{Node, Refusal, Script};
use table::clearing::{clear_entries, clear_nodes};
use table::{put_node, well_formed};
use tests::test_tree;
use text::Scanned;

// Line i is an entry of type `t`.
fn take_entry(
    entries: &mut [u32],
    script: Script,
    t: u32,
    next: usize,
    i: u32,
) -> Result<(Script, usize), Refusal>
    requires { entry_limit ≤ length entries.old }
    ensures { (result ≡ entry_step script next i) × (entries.new ≡ entry_stored script t entries.old) }
{
    if script.nodes != 0 {
        return Err(Refusal::BadLine(i));
    }
    let more = script.with_entry().ok_or(Refusal::TooManyAt(i))?;
    entries[script.entries] = t;
    Ok((more, next))
}

// Line i is a node.
fn take_node(
    table: &mut [u32],
    script: Script,
    n: Node,
    next: usize,
    i: u32,
) -> Result<(Script, usize), Refusal>
    requires { node_width * node_limit ≤ length table.old }
    ensures { (result ≡ node_step script n next i) × (table.new ≡ node_stored script n table.old) }
{
    let more = script.with_node().ok_or(Refusal::TooManyAt(i))?;
    if !well_formed(n, script.nodes) {
        return Err(Refusal::BadOperand(i));
    }
    put_node(table, script.nodes, n);
    Ok((more, next))
}

// Line i, which starts at `at`.
fn take_line(
    text: &[u8],
    at: usize,
    i: u32,
    script: Script,
    table: &mut [u32],
    entries: &mut [u32],
) -> Result<(Script, usize), Refusal>
    requires at_in_bounds { at ≤ length text.now }
    requires kept { Kept script table.old entries.old }
    ensures { Took text.now at i script table.old entries.old result table.new entries.new }
{
    let (line, next) = line_at(text, at).ok_or(Refusal::BadLine(i))?;
    match line {
        Scanned::Entry(t) => take_entry(entries, script, t, next, i),
        Scanned::Node(n) => take_node(table, script, n, next, i),
    }
}

// 3, 5 and 13 after the last line.
fn at_end(table: &[u32], script: Script) -> Result<Script, Refusal>
    requires { FormedNodes table.now script.nodes }
    ensures { result ≡ ended_by (need (ltb 0 script.nodes) NoNode (tree_test (take script.nodes (nodes_in table.now)))) script }
{
    if script.nodes == 0 {
        return Err(Refusal::NoNode);
    }
    test_tree(table, script.nodes)?;
    Ok(script)
}

// All lines, in one pass.
fn read_lines(text: &[u8], table: &mut [u32], entries: &mut [u32]) -> Result<Script, Refusal>
    requires text_len_bound { length text.now ≤ byte_limit }
    requires node_limit_in_bounds { node_width * node_limit ≤ length table.old }
    requires entry_limit_in_bounds { entry_limit ≤ length entries.old }
    ensures { Holds (lines_from 0 [] [] (parts lf text.now)) table.old entries.old result table.new entries.new }
{
    let mut script = Script::empty();
    let mut at = 0;
    let mut i: u32 = 0;
    while at < text.len() {
        let (more, next) = take_line(text, at, i, script, table, entries)?;
        script = more;
        at = next;
        i += 1;
    }
    at_end(table, script)
}

// 32 and 31, then the lines.
fn read_text(text: &[u8], table: &mut [u32], entries: &mut [u32]) -> Result<Script, Refusal>
    ensures { Holds (tried text.now (length (nodes_in table.old)) (length entries.old)) table.old entries.old result table.new entries.new }
{
    if table.len() / WIDTH < Script::NODES {
        return Err(Refusal::TableTooSmall);
    }
    if entries.len() < Script::ENTRIES {
        return Err(Refusal::TableTooSmall);
    }
    if Script::BYTES < text.len() {
        return Err(Refusal::TextTooLong);
    }
    read_lines(text, table, entries)
}

// Reads a text into a lent table and a lent list of entries.
pub fn read(text: &[u8], table: &mut [u32], entries: &mut [u32]) -> Result<Script, Refusal>
    ensures { leaves result table.new entries.new ≡ reading_in text.now table.old entries.old }
{
    match read_text(text, table, entries) {
        Ok(script) => {
            let nodes = script.nodes;
            let used = script.entries;
            clear_nodes(table, nodes);
            clear_entries(entries, used);
            return Ok(script);
        }
        Err(r) => {
            clear_nodes(table, 0);
            clear_entries(entries, 0);
            return Err(r);
        }
    }
}
