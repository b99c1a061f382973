// Checking and running over a lent table of records. Each copies the table to flat form and ends in the call over a table in flat form, which makes every
// refusal.
#![tactic(auto)]

ghost use Rattle.copies.specs.Copies.{records_by};
ghost use Rattle.records.specs.Records.{Checks, Runs};

use copies::copy_out;
use script::table::{LentTable, WIDTH};
use script::{Ended, Node, Refusal, Script};

// Checks a table: accepted with its type, or why not. Nothing lent changes.
pub fn check(lent: &LentTable<Node>) -> Result<u32, Refusal>
    ensures { Checks (records_by lent.now) result }
{
    let mut flat = [0u32; WIDTH * Script::NODES];
    let count = copy_out(lent.table, &mut flat);
    checker::check(&lent.over(&flat[..WIDTH * count]))
}

// Runs a table on entry values and cells in their 5-byte form, of which the first `used` cells are used: the value or the node of the error state, with
// the used count; or why not. A run changes used cells and adds cells; a refusal changes nothing.
pub fn run(
    lent: &LentTable<Node>,
    values: &[u8],
    cells: &mut [u8],
    used: u32,
) -> Result<Ended, Refusal>
    ensures { Runs (records_by lent.now) values.now cells.old used result cells.new }
{
    let mut flat = [0u32; WIDTH * Script::NODES];
    let count = copy_out(lent.table, &mut flat);
    runner::run(&lent.over(&flat[..WIDTH * count]), values, cells, used)
}
