// The conjuncts of a condition: a path's condition is a chain of 'a and b' and 'a and not b', where a is the chain before and b a guard. A guard that stands
// in the chain itself needs no search.
ghost use Rattle.std.specs.Prelude.{◌≡◌, ◌≤◌, ◌<◌, length};
ghost use Rattle.terms.specs.Places.{row_limit, rows_end};
ghost use Rattle.rows.specs.Code.{conjunct_of};
ghost use Rattle.decision.specs.Conjuncts.{link_of};

use rows::Decision;
use terms::{CONJUNCTION, EXCLUSION, row_at};

// What a condition with this operator makes of its second operand as a guard.
#[tactic(auto, unfolding(crate::specs::Conjuncts::link_of))]
fn link(op: u32) -> Option<Decision>
    ensures { result ≡ link_of op }
{
    match op {
        CONJUNCTION => Some(Decision::OnlyTrue),
        EXCLUSION => Some(Decision::OnlyFalse),
        _ => None,
    }
}

// The decision of a guard that the condition has as a conjunct, or its negation.
pub fn conjunct(space: &[u32], condition: usize, guard: u32) -> Option<Decision>
    requires { (rows_end ≤ length space.now) × (condition < row_limit) }
    ensures { result ≡ link_of (conjunct_of space.now condition guard) }
{
    let mut i = condition;
    loop {
        let row = row_at(space, i);
        let decision = link(row.op)?;
        if row.b == guard {
            return Some(decision);
        }
        if i <= row.a as usize {
            return None;
        }
        i = row.a as usize;
    }
}
