// The tests of a table in its flat form, in their order: 32, 2, 3, 33, 4, 5, 13. Each loop passes once over the nodes.
#![tactic(auto)]

ghost use Rattle.std.specs.Prelude.{◌≡◌, ◌+◌, ◌<◌, ◌≤◌, leb, length, take};
ghost use Rattle.script.specs.Flat.{nodes_in, table_by};
ghost use Rattle.script.specs.Limits.{node_limit, type_limit, word_limit};
ghost use Rattle.script.specs.Table.{is_sym_node, operands, tree_test, nodes_test, table_test};
ghost use Rattle.script.specs.Code.TableTests.{uses_test, depths_test, used_test, Lent, operands_test, Zeros, Within, Small, Counted, Spread, UseCounts, Nestings, counts_test, syms_in, deep_at, nesting_test};
ghost use Rattle.script.specs.Flat.{tested_by, FormedNodes};
ghost use Rattle.script.specs.Tests.{all, pick};

use script::table::{LentTable, WIDTH};
use script::{Node, Refusal, Script};
use table::{is_sym, node_at, node_operands, operand_at, well_formed};

// All codes of the entries are types.
fn right_codes(entries: &[u32]) -> bool
    ensures { result ≡ all (λ c. leb c type_limit) entries.now }
{
    entries.iter().all(|&code| code <= Script::TYPE)
}

// 4 of the first `nodes` nodes.
fn test_operands(table: &[u32], nodes: usize) -> Result<(), Refusal>
    requires { Lent table.now nodes }
    ensures { result ≡ tested_by (operands_test (take nodes (nodes_in table.now))) }
{
    for i in 0..nodes {
        if !well_formed(node_at(table, i), i) {
            return Err(Refusal::BadOperand(i as u32));
        }
    }
    Ok(())
}

// One more at each place that is an operand of n.
fn count_operands(counts: &mut [u32], n: Node)
    requires within { Within (operands n) counts.old }
    requires small { Small counts.old }
    ensures { Counted (operands n) counts.old counts.new }
{
    let m = node_operands(n.kind);
    for k in 0..m {
        let o = operand_at(n, k) as usize;
        counts[o] += 1;
    }
}

// How often each of the first `nodes` nodes is used.
fn count_uses(table: &[u32], nodes: usize, counts: &mut [u32])
    requires formed_nodes { FormedNodes table.now nodes }
    requires zeros { Zeros nodes counts.old }
    ensures { UseCounts (take nodes (nodes_in table.now)) counts.new }
{
    for j in 0..nodes {
        count_operands(counts, node_at(table, j));
    }
}

// 5 by the counts of the nodes. The last node is not tested.
fn test_counts(counts: &[u32]) -> Result<(), Refusal>
    requires { length counts.now ≤ node_limit }
    ensures { result ≡ tested_by (counts_test counts.now (length counts.now)) }
{
    for i in 0..counts.len().saturating_sub(1) {
        if counts[i] != 1 {
            return Err(Refusal::NotUsedOnce(i as u32));
        }
    }
    Ok(())
}

// The number v at each place that is an operand of n.
fn spread(depths: &mut [u32], n: Node, v: u32)
    requires { Within (operands n) depths.old }
    ensures { Spread (operands n) v depths.old depths.new }
{
    let m = node_operands(n.kind);
    for k in 0..m {
        let o = operand_at(n, k) as usize;
        depths[o] = v;
    }
}

// The number d, and one more for a `sym`.
fn with_sym(n: Node, d: u32) -> u32
    requires { d < word_limit }
    ensures { result ≡ pick (is_sym_node n) 1 0 + d }
{
    d + is_sym(n) as u32
}

// How many of the first `nodes` nodes are `sym`.
fn count_syms(table: &[u32], nodes: usize) -> u32
    requires { Lent table.now nodes }
    ensures { result ≡ syms_in (take nodes (nodes_in table.now)) }
{
    let mut count = 0;
    for i in 0..nodes {
        count = with_sym(node_at(table, i), count);
    }
    count
}

// How many `sym` are around each of the first `nodes` nodes: from the last down, each node tells its operands.
fn note_depths(table: &[u32], nodes: usize, depths: &mut [u32])
    requires formed_nodes { FormedNodes table.now nodes }
    requires zeros { Zeros nodes depths.old }
    ensures { Nestings (take nodes (nodes_in table.now)) depths.new }
{
    for j in (0..nodes).rev() {
        let n = node_at(table, j);
        let inside = with_sym(n, depths[j]);
        spread(depths, n, inside);
    }
}

// The node is a `sym`, and d `sym` around it are too many.
fn too_deep(n: Node, d: u32) -> bool
    ensures { result ≡ deep_at n d }
{
    if is_sym(n) {
        return Script::NESTING <= d as usize;
    }
    false
}

// 13 by the depths of the first `nodes` nodes.
fn test_depths(table: &[u32], nodes: usize, depths: &[u32]) -> Result<(), Refusal>
    requires lent { Lent table.now nodes }
    requires nodes_in_bounds { nodes ≤ length depths.now }
    ensures { result ≡ tested_by (nesting_test (take nodes (nodes_in table.now)) depths.now) }
{
    for i in 0..nodes {
        if too_deep(node_at(table, i), depths[i]) {
            return Err(Refusal::TooDeep(i as u32));
        }
    }
    Ok(())
}

// 5 of the first `nodes` nodes, which are well formed.
fn test_uses(table: &[u32], nodes: usize) -> Result<(), Refusal>
    requires { FormedNodes table.now nodes }
    ensures { result ≡ tested_by (uses_test (take nodes (nodes_in table.now))) }
{
    let mut counts = [0u32; Script::NODES];
    count_uses(table, nodes, &mut counts);
    test_counts(&counts[..nodes])
}

// 13 of the first `nodes` nodes, which are well formed. No more `sym` are around a node than there are.
fn test_nesting(table: &[u32], nodes: usize) -> Result<(), Refusal>
    requires { FormedNodes table.now nodes }
    ensures { result ≡ tested_by (depths_test (take nodes (nodes_in table.now))) }
{
    if count_syms(table, nodes) as usize <= Script::NESTING {
        return Ok(());
    }
    let mut depths = [0u32; Script::NODES];
    note_depths(table, nodes, &mut depths);
    test_depths(table, nodes, &depths)
}

// 5 and 13 of the first `nodes` nodes, which are well formed.
pub fn test_tree(table: &[u32], nodes: usize) -> Result<(), Refusal>
    requires { FormedNodes table.now nodes }
    ensures { result ≡ tested_by (tree_test (take nodes (nodes_in table.now))) }
{
    test_uses(table, nodes)?;
    test_nesting(table, nodes)
}

// 4, 5 and 13 of the first `nodes` nodes.
fn test_nodes(table: &[u32], nodes: usize) -> Result<(), Refusal>
    requires { Lent table.now nodes }
    ensures { result ≡ tested_by (nodes_test (take nodes (nodes_in table.now))) }
{
    test_operands(table, nodes)?;
    test_tree(table, nodes)
}

// 3, 33, 4, 5 and 13 of a table whose counts are within the limits and the lent places.
fn test_used(lent: &LentTable<u32>) -> Result<(), Refusal>
    requires lent { Lent lent.now.table.now lent.now.nodes }
    requires entry_count_in_bounds { lent.now.entry_count ≤ length lent.now.entries.now }
    ensures { result ≡ tested_by (used_test (table_by lent.now)) }
{
    if lent.nodes == 0 {
        return Err(Refusal::NoNode);
    }
    if right_codes(&lent.entries[..lent.entry_count]) {
        return test_nodes(lent.table, lent.nodes);
    }
    Err(Refusal::BadTypeCode)
}

// All tests of a table, in their order.
pub fn test_table(lent: &LentTable<u32>) -> Result<(), Refusal>
    ensures { result ≡ tested_by (table_test (table_by lent.now)) }
{
    if lent.table.len() / WIDTH < Script::NODES {
        return Err(Refusal::TableTooSmall);
    }
    if lent.entries.len() < Script::ENTRIES {
        return Err(Refusal::TableTooSmall);
    }
    Script::of(lent.nodes, lent.entry_count).ok_or(Refusal::TooMany)?;
    test_used(lent)
}
