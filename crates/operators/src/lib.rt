// The rules of evaluation: what node n gives once its operands have given theirs. `steps` has how that is handed up, and which operand comes next.
#![tactic(auto)]

ghost use Rattle.std.specs.Prelude.{ℕ, ◌*◌, ◌≤◌, length};
ghost use Rattle.std.proofs.Math.ListN.{get_elem?};
ghost use Rattle.script.specs.Code.Forms.{form_of};
ghost use Rattle.script.specs.Rows.{not_op, ref_op, get_op, add_op, eq_op, and_op, set_op};
ghost use Rattle.rules.specs.Evaluation.{gave, failed, found, unary_on, binary_on};
ghost use Rattle.rules.specs.Running.{values_of};
ghost use Rattle.rules.specs.Running.Laws.{InRange};
ghost use Rattle.operators.specs.Steps.{Cells, Does, Says, leaf_on, one_on, two_on};

pub mod steps;

use cells::{load, store};
use script::table::{ADD, AND, EQ, GET, INT, NOT, REF, SET, TRUE, VAR};
use script::{Node, Value};

// What a node comes to: a value and the used count, or the node of the error state and the used count.
pub type Step = Result<(Value, u32), (u32, u32)>;

// A step with its value's number beside the others. This is how a step is handed up: a value inside it would be written in two pieces and read as one, and
// a processor waits where these meet.
#[derive(Clone, Copy)]
pub enum Parts {
    Word(u32, u32),
    Truth(bool, u32),
    Location(u32, u32),
    Failed(u32, u32),
}

// `var`: the value at place k of the environment.
fn variable(environment: &[u8], depth: usize, k: u32, used: u32, n: u32) -> Step
    requires { 5 * depth ≤ length environment.now }
    ensures { Says (λ cs. found (get_elem? (values_of depth environment.now) k) (failed n cs) λ v. gave v cs) used result }
{
    let i = k as usize;
    if i < depth {
        return Ok((load(environment, i), used));
    }
    Err((n, used))
}

// A node whose operands are no nodes: `int`, `true`, `false` and `var`.
pub fn leaf(node: Node, environment: &[u8], depth: usize, used: u32, n: u32) -> Step
    requires { 5 * depth ≤ length environment.now }
    ensures { Says (leaf_on (form_of node.kind) n node (values_of depth environment.now)) used result }
{
    let kind = node.kind;
    match kind {
        INT => Ok((Value::Word(node.a), used)),
        TRUE => Ok((Value::Truth(true), used)),
        VAR => variable(environment, depth, node.a, used, n),
        _ => Ok((Value::Truth(false), used)),
    }
}

// `not`.
fn negation(v: Value, used: u32, n: u32) -> Step
    ensures { Says (unary_on n not_op v) used result }
{
    match v {
        Value::Truth(b) => Ok((Value::Truth(!b), used)),
        _ => Err((n, used)),
    }
}

// `ref`: the next cell.
fn make_cell(v: Value, cells: &mut [u8], used: u32) -> Step
    requires cells { Cells cells.old used 1 }
    requires in_range { InRange v }
    ensures { (n : ℕ) → Does (unary_on n ref_op v (values_of used cells.old)) result cells.old cells.new }
{
    store(cells, used as usize, v);
    Ok((Value::Location(used), used + 1))
}

// `get`.
fn read_cell(v: Value, cells: &[u8], used: u32, n: u32) -> Step
    requires { Cells cells.now used 0 }
    ensures { Does (unary_on n get_op v (values_of used cells.now)) result cells.now cells.now }
{
    let Value::Location(l) = v else {
        return Err((n, used));
    };
    if l < used {
        return Ok((load(cells, l as usize), used));
    }
    Err((n, used))
}

// A node with one operand, which gave v; a block is its operand.
pub fn one(kind: u32, v: Value, cells: &mut [u8], used: u32, n: u32) -> Step
    requires cells { Cells cells.old used 1 }
    requires in_range { InRange v }
    ensures { Does (one_on (form_of kind) n v (values_of used cells.old)) result cells.old cells.new }
{
    match kind {
        NOT => negation(v, used, n),
        REF => make_cell(v, cells, used),
        GET => read_cell(v, cells, used, n),
        _ => Ok((v, used)),
    }
}

// `add`, modulo 2^32.
fn sum(v: Value, w: Value, used: u32, n: u32) -> Step
    ensures { Says (binary_on n add_op v w) used result }
{
    match (v, w) {
        (Value::Word(a), Value::Word(b)) => Ok((Value::Word(a.wrapping_add(b)), used)),
        _ => Err((n, used)),
    }
}

// `eq`: two values of one kind.
fn equality(v: Value, w: Value, used: u32, n: u32) -> Step
    ensures { Says (binary_on n eq_op v w) used result }
{
    if v.kind() == w.kind() {
        return Ok((Value::Truth(v.bits() == w.bits()), used));
    }
    Err((n, used))
}

// `and`.
fn conjunction(v: Value, w: Value, used: u32, n: u32) -> Step
    ensures { Says (binary_on n and_op v w) used result }
{
    match (v, w) {
        (Value::Truth(a), Value::Truth(b)) => Ok((Value::Truth(a && b), used)),
        _ => Err((n, used)),
    }
}

// `set`: gives the stored value.
fn write_cell(v: Value, w: Value, cells: &mut [u8], used: u32, n: u32) -> Step
    requires cells { Cells cells.old used 0 }
    requires in_range { InRange w }
    ensures { Does (binary_on n set_op v w (values_of used cells.old)) result cells.old cells.new }
{
    let Value::Location(l) = v else {
        return Err((n, used));
    };
    if l < used {
        store(cells, l as usize, w);
        return Ok((w, used));
    }
    Err((n, used))
}

// A node whose first operand gave v and the next one w; a `let` is its second operand, an `if` the branch that ran.
pub fn two(kind: u32, v: Value, w: Value, cells: &mut [u8], used: u32, n: u32) -> Step
    requires cells { Cells cells.old used 0 }
    requires in_range { InRange w }
    ensures { Does (two_on (form_of kind) n v w (values_of used cells.old)) result cells.old cells.new }
{
    match kind {
        ADD => sum(v, w, used, n),
        EQ => equality(v, w, used, n),
        AND => conjunction(v, w, used, n),
        SET => write_cell(v, w, cells, used, n),
        _ => Ok((w, used)),
    }
}
