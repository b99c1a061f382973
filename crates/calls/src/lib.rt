// Checking and running over a table of records, for programs that keep a table in flat form. Each call has a table of records of its own, with two places more
// than a script can use.
#![tactic(auto)]

ghost use Rattle.records.specs.Records.{Checks, Runs};
ghost use Rattle.call_texts.specs.Tables.{flat_by};

use call_texts::{PLACES, STALE};
use copies::copy_in;
use script::table::LentTable;
use script::{Ended, Refusal};

// Checks a table.
pub fn check(lent: &LentTable<u32>) -> Result<u32, Refusal>
    ensures { Checks (flat_by lent.now) result }
{
    let mut table = [STALE; PLACES];
    copy_in(&mut table, lent.table);
    records::check(&lent.over(&table))
}

// Runs a table.
pub fn run(
    lent: &LentTable<u32>,
    values: &[u8],
    cells: &mut [u8],
    used: u32,
) -> Result<Ended, Refusal>
    ensures { Runs (flat_by lent.now) values.now cells.old used result cells.new }
{
    let mut table = [STALE; PLACES];
    copy_in(&mut table, lent.table);
    records::run(&lent.over(&table), values, cells, used)
}
