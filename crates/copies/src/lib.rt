// Between a table of records and a table in flat form: one record out or in, and the whole table.
#![tactic(auto)]

ghost use Rattle.std.specs.Prelude.{◌≡◌, ◌<◌, min, length, set};
ghost use Rattle.script.specs.Flat.{nodes_in};
ghost use Rattle.script.specs.Table.{node_at};
ghost use Rattle.copies.specs.Copies.{CopiedOut, places};

use script::Node;
use script::table::WIDTH;
use table::{node_at, put_node, unused};

// The record at place i.
pub fn record_at(table: &[Node], i: usize) -> Node
    requires { i < length table.now }
    ensures { result ≡ node_at table.now i }
{
    table[i]
}

// A table with this record at place i.
pub fn put_record(table: &mut [Node], i: usize, n: Node)
    requires { i < length table.old }
    ensures { table.new ≡ set table.old i n }
{
    table[i] = n;
}

// The node at place i of a table in flat form, `false` where it has no such place.
fn place_at(flat: &[u32], i: usize) -> Node
    ensures { result ≡ node_at (nodes_in flat.now) i }
{
    if i < flat.len() / WIDTH {
        return node_at(flat, i);
    }
    unused()
}

// Copies the records to flat form, as many as there is room for, and says how many.
pub fn copy_out(table: &[Node], flat: &mut [u32]) -> usize
    ensures { CopiedOut table.now flat.old result flat.new }
{
    let n = table.len().min(flat.len() / WIDTH);
    for i in 0..n {
        put_node(flat, i, record_at(table, i));
    }
    n
}

// Fills every place of a table of records: the nodes of a table in flat form, and `false` in the places after them.
pub fn copy_in(table: &mut [Node], flat: &[u32])
    ensures { table.new ≡ places (length table.old) flat.now }
{
    for at in 0..table.len() {
        put_record(table, at, place_at(flat, at));
    }
}
