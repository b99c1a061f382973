// Clearing the places of a lent table, and of its entries, that a script does not use.
ghost use Rattle.std.specs.Prelude.{◌++◌, ◌≡◌, ◌-◌, ◌≤◌, length, take, replicate};
ghost use Rattle.script.specs.Code.Clearing.{Cleared};
ghost use Rattle.script.specs.Flat.{nodes_in};

use crate::{put_node, unused};
use script::table::WIDTH;

// `false` in every place of the table from node `from` on.
pub fn clear_nodes(table: &mut [u32], from: usize)
    requires { from ≤ length (nodes_in table.old) }
    ensures { Cleared from table.old table.new }
{
    let n = table.len() / WIDTH;
    let blank = unused();
    for i in from..n {
        put_node(table, i, blank);
    }
}

// 0 in every entry from `from` on.
pub fn clear_entries(entries: &mut [u32], from: usize)
    requires { from ≤ length entries.old }
    ensures { entries.new ≡ take from entries.old ++ replicate (length entries.old - from) 0 }
{
    entries[from..].fill(0);
}
