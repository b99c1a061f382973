// The steps of a run: how one is handed up, and which operand comes next.
ghost use Rattle.std.specs.Prelude.{◌≡◌};
ghost use Rattle.script.specs.Code.Forms.{form_of};
ghost use Rattle.operators.specs.Steps.{whole_of, next_on};

use crate::{Parts, Step};
use script::table::IF;
use script::{Node, Value};

// The parts of a step.
pub fn parts_of(step: Step) -> Parts
    ensures { whole_of result ≡ step }
{
    match step {
        Ok((v, used)) => match v {
            Value::Word(w) => Parts::Word(w, used),
            Value::Truth(b) => Parts::Truth(b, used),
            Value::Location(l) => Parts::Location(l, used),
        },
        Err((at, used)) => Parts::Failed(at, used),
    }
}

// The step that has these parts.
pub fn whole(parts: Parts) -> Step
    ensures { result ≡ whole_of parts }
{
    match parts {
        Parts::Word(w, used) => Ok((Value::Word(w), used)),
        Parts::Truth(b, used) => Ok((Value::Truth(b), used)),
        Parts::Location(l, used) => Ok((Value::Location(l), used)),
        Parts::Failed(at, used) => Err((at, used)),
    }
}

// The operand of a node that comes after the first, which gave v: of an `if` the branch that is taken.
pub fn next_operand(node: Node, v: Value) -> Option<u32>
    ensures { result ≡ next_on (form_of node.kind) v node }
{
    if node.kind == IF {
        return match v {
            Value::Truth(t) => {
                if t {
                    return Some(node.b);
                }
                Some(node.c)
            }
            _ => None,
        };
    }
    Some(node.b)
}
