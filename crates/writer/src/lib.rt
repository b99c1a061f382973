// The writer: from a table in flat form to lent bytes.
#![tactic(auto)]

ghost use Rattle.std.proofs.Math.Option.{none};
ghost use Rattle.std.specs.Prelude.{◌≡◌, ℕ, ◌+◌, ◌*◌, ◌^◌, ◌≤◌, ◌<◌, length, take};
ghost use Rattle.script.specs.Flat.{node_width, nodes_in, table_by};
ghost use Rattle.script.specs.Rows.Kinds.{kind_count};
ghost use Rattle.script.specs.Table.{node_at, table_test};
ghost use Rattle.text.specs.Code.Output.{Put, operand_if, text_in};
ghost use Rattle.text.specs.Writing.{outcome, entry_text, node_text, entries_text, nodes_text, long_enough, writing};

use fields::{LF, TAB};
use output::{put, put_bytes, put_number, put_type, put_word};
use script::table::LentTable;
use script::{Node, Refusal, Script};
use table::{node_at, operand_count};
use tests::test_table;

// An entry line.
fn put_entry(out: &mut [u8], at: usize, t: u32) -> usize
    requires { at + length (entry_text t) < 2 ^ 64 }
    ensures { Put (entry_text t) at out.old result out.new }
{
    let after_word = put_bytes(out, at, b"entry\t");
    let after_type = put_type(out, after_word, t);
    put(out, after_type, LF);
    after_type + 1
}

// An operand after a tab, where it is wanted.
fn put_operand(out: &mut [u8], at: usize, o: u32, wanted: bool) -> usize
    requires { at + length (operand_if wanted o) < 2 ^ 64 }
    ensures { Put (operand_if wanted o) at out.old result out.new }
{
    if wanted {
        put(out, at, TAB);
        return put_number(out, at + 1, o);
    }
    at
}

// A node line.
fn put_node_line(out: &mut [u8], at: usize, n: Node) -> usize
    requires kind_lt_kind_count { n.kind < kind_count }
    requires n_bound { at + length (node_text n) < 2 ^ 64 }
    ensures { Put (node_text n) at out.old result out.new }
{
    let kind = n.kind;
    let count = operand_count(kind);
    let after_word = put_word(out, at, kind);
    let after_a = put_operand(out, after_word, n.a, 0 < count);
    let after_b = put_operand(out, after_a, n.b, 1 < count);
    let after_c = put_operand(out, after_b, n.c, 2 < count);
    put(out, after_c, LF);
    after_c + 1
}

// The lines of the entries.
fn put_entries(out: &mut [u8], entries: &[u32]) -> usize
    requires { length (entries_text entries.now) < 2 ^ 64 }
    ensures { Put (entries_text entries.now) 0 out.old result out.new }
{
    let mut at = 0;
    for &t in entries {
        at = put_entry(out, at, t);
    }
    at
}

// The lines of the first `count` nodes, from place `from` on.
fn put_nodes(out: &mut [u8], from: usize, table: &[u32], count: usize) -> usize
    requires count_in_bounds { node_width * count ≤ length table.now }
    requires by_index { (i : ℕ) → i < count → (node_at (nodes_in table.now) i).kind < kind_count }
    requires table_bound { from + length (nodes_text (take count (nodes_in table.now))) < 2 ^ 64 }
    ensures { Put (nodes_text (take count (nodes_in table.now))) from out.old result out.new }
{
    let mut at = from;
    for i in 0..count {
        let n = node_at(table, i);
        at = put_node_line(out, at, n);
    }
    at
}

// The whole text of a table that passed its tests; its length is given also where it does not fit.
fn put_text(out: &mut [u8], lent: &LentTable<u32>) -> usize
    requires { table_test (table_by lent.now) ≡ none }
    ensures { Put (text_in (table_by lent.now)) 0 out.old result out.new }
{
    let after_entries = put_entries(out, &lent.entries[..lent.entry_count]);
    put_nodes(out, after_entries, lent.table, lent.nodes)
}

// Whether the text fits. No text is longer than the limit; in a shorter output it is measured, by writing it into no bytes.
fn fits(out: &mut [u8], lent: &LentTable<u32>) -> bool
    requires { table_test (table_by lent.now) ≡ none }
    ensures value { result ≡ long_enough out.old (text_in (table_by lent.now)) }
    ensures out_unchanged { out.new ≡ out.old }
{
    if Script::BYTES <= out.len() {
        return true;
    }
    let length = put_text(&mut out[..0], lent);
    length <= out.len()
}

// The text of a table that passed its tests, or 36.
fn write_passed(out: &mut [u8], lent: &LentTable<u32>) -> Result<usize, Refusal>
    requires { table_test (table_by lent.now) ≡ none }
    ensures { outcome result out.new ≡ writing (table_by lent.now) out.old }
{
    if fits(out, lent) {
        let length = put_text(out, lent);
        return Ok(length);
    }
    Err(Refusal::OutputTooShort)
}

// Writes the text of a table into lent bytes: the tests of the table, then 36. A refusal changes nothing lent.
pub fn write(lent: &LentTable<u32>, out: &mut [u8]) -> Result<usize, Refusal>
    ensures { outcome result out.new ≡ writing (table_by lent.now) out.old }
{
    test_table(lent)?;
    write_passed(out, lent)
}
