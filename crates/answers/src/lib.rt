// An answer as one number, for a host in C.
#![tactic(auto)]

ghost use Rattle.std.specs.Prelude.{Ok, ◌≡◌, ◌^◌, ◌<◌};
ghost use Rattle.answers.specs.Answers.{packed, answer_of_refusal, answer_of_check, answer_of_run};
ghost use Rattle.answers.specs.Code.Packing.{used_in};

use script::{Ended, Refusal};

// The four fields of an answer in one number.
fn pack(status: u64, number: u64, place: u64, value: u64) -> u64
    requires { packed status number place value < 2 ^ 64 }
    ensures { result ≡ packed status number place value }
{
    status + 256 * number + 65536 * place + 4294967296 * value
}

// A refusal's number and its place plus 1, or 0 for none.
fn refusal_answer(why: Refusal) -> u64
    ensures { result ≡ answer_of_refusal why }
{
    let number = why.number() as u64;
    match why.place() {
        None => pack(1, number, 0, 0),
        Some(i) => pack(1, number, i as u64 + 1, 0),
    }
}

// The answer of a check: the type's code, or the refusal.
pub fn check_answer(answer: Result<u32, Refusal>) -> u64
    ensures { result ≡ answer_of_check answer }
{
    match answer {
        Ok(code) => pack(0, 0, 0, code as u64),
        Err(why) => refusal_answer(why),
    }
}

// The answer of a run that ended: the value or the node of the error state, with the used count.
fn ended_answer(ended: Ended) -> u64
    requires { used_in (Ok ended) < 65536 }
    ensures { result ≡ answer_of_run (Ok ended) }
{
    match ended {
        Ended::Gave(v, count) => pack(0, v.kind() as u64, count as u64, v.bits() as u64),
        Ended::Failed(at, count) => pack(2, 0, count as u64, at as u64),
    }
}

// The answer of a run: how it ended, or the refusal.
pub fn run_answer(answer: Result<Ended, Refusal>) -> u64
    requires { used_in answer < 65536 }
    ensures { result ≡ answer_of_run answer }
{
    match answer {
        Ok(ended) => ended_answer(ended),
        Err(why) => refusal_answer(why),
    }
}
