// Checking and running of script text: `check_text` and `run_text` with answers as results, for Rattle; `teqharis_check` and `teqharis_run` with each answer as
// one number, which `host_c` exports to C.
#![tactic(auto)]

ghost use Rattle.std.specs.Prelude.{◌≡◌};
ghost use Rattle.answers.specs.Answers.{answer_of_check, AnswersRun};
ghost use Rattle.host.specs.Texts.{check_text, run_text, RanTo};

use answers::{check_answer, run_answer};
use script::table::{LentTable, WIDTH};
use script::{Ended, Refusal, Script};

// Reads a text and checks it: accepted with its type, or why not.
pub fn check_text(text: &[u8]) -> Result<u32, Refusal>
    ensures { result ≡ check_text text.now }
{
    let mut table = [0u32; WIDTH * Script::NODES];
    let mut entries = [0u32; Script::ENTRIES];
    let script = reader::read(text, &mut table, &mut entries)?;
    let lent = LentTable {
        table: &table,
        nodes: script.nodes,
        entries: &entries,
        entry_count: script.entries,
    };
    checker::check_passed(&lent)
}

// Reads a text and runs it on entry values and cells, of which the first `used` are used: a value or the error state, or why not.
pub fn run_text(text: &[u8], values: &[u8], cells: &mut [u8], used: u32) -> Result<Ended, Refusal>
    ensures { RanTo (run_text text.now values.now cells.old used) result cells.new }
{
    let mut table = [0u32; WIDTH * Script::NODES];
    let mut entries = [0u32; Script::ENTRIES];
    let script = reader::read(text, &mut table, &mut entries)?;
    let lent = LentTable {
        table: &table,
        nodes: script.nodes,
        entries: &entries,
        entry_count: script.entries,
    };
    runner::run_passed(&lent, values, cells, used)
}

// Checks a script text. The answer is a number that include/teqharis.h takes apart.
pub fn teqharis_check(text: &[u8]) -> u64
    ensures { result ≡ answer_of_check (check_text text.now) }
{
    check_answer(check_text(text))
}

// Runs a script text on entry values and cells. The answer is a number that include/teqharis.h takes apart.
pub fn teqharis_run(text: &[u8], values: &[u8], cells: &mut [u8], used: u32) -> u64
    ensures { AnswersRun (run_text text.now values.now cells.old used) result cells.new }
{
    run_answer(run_text(text, values, cells, used))
}
