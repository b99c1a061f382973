// The library for a host in C: the two calls of `host`, as C calls them.
#![tactic(auto)]

ghost use Rattle.std.specs.Prelude.{◌≡◌};
ghost use Rattle.answers.specs.Answers.{answer_of_check, AnswersRun};
ghost use Rattle.host.specs.Texts.{check_text, run_text};

// Checks a script text. The answer is a number that include/teqharis.h takes apart.
#[unsafe(no_mangle)]
pub extern "C" fn teqharis_check(text: &[u8]) -> u64
    ensures { result ≡ answer_of_check (check_text text.now) }
{
    host::teqharis_check(text)
}

// Runs a script text on entry values and cells. The answer is a number that include/teqharis.h takes apart.
#[unsafe(no_mangle)]
pub extern "C" fn teqharis_run(text: &[u8], values: &[u8], cells: &mut [u8], used: u32) -> u64
    ensures { AnswersRun (run_text text.now values.now cells.old used) result cells.new }
{
    host::teqharis_run(text, values, cells, used)
}
