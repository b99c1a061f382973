// The checker: the typed rules and the symbolic rules over a table. `check` is the whole call; `nodes` checks and executes nodes, `path` has a path's own
// numbers, `steps` the way of a value up, `forks` the way back to a fork. Below it stand the rules, `types` and `symbolic`, and `write_log`, `notes` and `frames`,
// over one `workspace`.
#![tactic(auto)]

ghost use Rattle.std.proofs.Math.Option.{none};
ghost use Rattle.std.specs.Prelude.{◌≡◌, ◌*◌, ◌≤◌, length};
ghost use Rattle.script.specs.Flat.{table_by};
ghost use Rattle.script.specs.Table.{table_test};
ghost use Rattle.rules.specs.Checking.{path_limit, check_table};
ghost use Rattle.checker.specs.Code.Whole.{Placed};

mod forks;
mod nodes;
mod path;
mod steps;

use nodes::check_node;
use script::Refusal;
use script::table::LentTable;
use terms::VARIABLES;
use tests::test_table;

// At most how many paths a `sym` has.
const PATHS: u32 = 64;

// The entries' types as the environment.
fn entry_types(entries: &[u32], space: &mut [u32])
    requires { 2 * length entries.now ≤ length space.old }
    ensures { Placed entries.now space.old (length entries.now) space.new }
{
    for (i, code) in entries.iter().enumerate() {
        space[2 * i] = *code;
    }
}

// Checks a table that passes its tests.
fn check_tested(lent: &LentTable<u32>, limit: u32) -> Result<u32, Refusal>
    requires { table_test (table_by lent.now) ≡ none }
    ensures { result ≡ check_table limit (table_by lent.now) }
{
    let mut space = [0u32; 2 * VARIABLES];
    entry_types(&lent.entries[..lent.entry_count], &mut space);
    check_node(
        lent.table,
        &mut space,
        lent.entry_count,
        limit,
        (lent.nodes - 1) as u32,
    )
}

// Checks a table by the rules, where a `sym` may have so many paths.
fn check_within(lent: &LentTable<u32>, limit: u32) -> Result<u32, Refusal>
    ensures { result ≡ check_table limit (table_by lent.now) }
{
    test_table(lent)?;
    check_tested(lent, limit)
}

// Checks a table that is known to pass its tests, as one that was read from a text.
pub fn check_passed(lent: &LentTable<u32>) -> Result<u32, Refusal>
    requires { table_test (table_by lent.now) ≡ none }
    ensures { result ≡ check_table path_limit (table_by lent.now) }
{
    check_tested(lent, PATHS)
}

// Checks a table: accepted with its type, or why not. Nothing lent changes.
pub fn check(lent: &LentTable<u32>) -> Result<u32, Refusal>
    ensures { result ≡ check_table path_limit (table_by lent.now) }
{
    check_within(lent, PATHS)
}
