// The type rules: what node n gives in typed mode once its operands have given their types. A type is its code.
#![tactic(auto)]

ghost use Rattle.std.specs.Prelude.{◌≡◌, ◌*◌, ◌<◌, ◌≤◌, eqb, length, unwrap_or, Ok};
ghost use Rattle.std.proofs.Math.ListN.{get_elem?};
ghost use Rattle.script.specs.Code.Forms.{form_of};
ghost use Rattle.script.specs.Rows.{set_op};
ghost use Rattle.script.specs.Tests.{pick};
ghost use Rattle.rules.specs.Checking.{known};
ghost use Rattle.rules.specs.TypedRules.{wrong, binary_type, if_type};
ghost use Rattle.terms.specs.Places.{symbol_limit, variables_end};
ghost use Rattle.workspace.specs.Rules.{leaf_type, one_type, two_type, BoundTypes};
ghost use Rattle.workspace.specs.State.{types_on};

use script::table::{ADD, AND, EQ, GET, INT, LET, NOT, REF, SET, VAR};
use script::{Node, Refusal};

// From this code on a type has 15 references: `ref` makes no type of it.
pub const DEEPEST: u32 = 30;

// `var`: the type at place k of the environment.
fn variable_type(space: &[u32], depth: usize, k: u32, n: u32) -> Result<u32, Refusal>
    requires { 2 * depth ≤ length space.now }
    ensures { result ≡ known n (get_elem? (types_on space.now depth) k) }
{
    let i = k as usize;
    if i < depth {
        return Ok(space[2 * i]);
    }
    Err(Refusal::UnknownVariable(n))
}

// A node whose operands are no nodes.
pub fn leaf_type(node: Node, space: &[u32], depth: usize, n: u32) -> Result<u32, Refusal>
    requires { 2 * depth ≤ length space.now }
    ensures { result ≡ leaf_type (form_of node.kind) n node (types_on space.now depth) }
{
    let kind = node.kind;
    match kind {
        INT => Ok(0),
        VAR => variable_type(space, depth, node.a, n),
        _ => Ok(1),
    }
}

// A node with one operand that is a node, which has type t.
pub fn one_type(kind: u32, t: u32, n: u32) -> Result<u32, Refusal>
    ensures { result ≡ one_type (form_of kind) n t }
{
    match kind {
        NOT => {
            if t == 1 {
                return Ok(1);
            }
            Err(Refusal::WrongType(n))
        }
        REF => {
            if t < DEEPEST {
                return Ok(t + 2);
            }
            Err(Refusal::TooManyReferences(n))
        }
        GET => {
            if 2 <= t {
                return Ok(t - 2);
            }
            Err(Refusal::WrongType(n))
        }
        _ => Ok(t),
    }
}

// `set`: a reference to u, and a value of type u.
fn set_type(t: u32, u: u32, n: u32) -> Result<u32, Refusal>
    ensures { result ≡ binary_type n set_op t u }
{
    if 2 <= t && t - 2 == u {
        return Ok(u);
    }
    Err(Refusal::WrongType(n))
}

// Both types are the one wanted, and so is the node's.
fn both_type(t: u32, u: u32, wanted: u32, n: u32) -> Result<u32, Refusal>
    ensures { result ≡ pick (eqb t wanted) (pick (eqb u wanted) (Ok wanted) (wrong n)) (wrong n) }
{
    if t == wanted && u == wanted {
        return Ok(wanted);
    }
    Err(Refusal::WrongType(n))
}

// A node with two operands, of types t and u.
pub fn two_type(kind: u32, t: u32, u: u32, n: u32) -> Result<u32, Refusal>
    ensures { result ≡ two_type (form_of kind) n t u }
{
    match kind {
        ADD => both_type(t, u, 0, n),
        EQ => {
            if t == u {
                return Ok(1);
            }
            Err(Refusal::WrongType(n))
        }
        AND => both_type(t, u, 1, n),
        SET => set_type(t, u, n),
        _ => Ok(u),
    }
}

// An `if`, whose condition has type t and whose branches have u and v.
pub fn if_type(t: u32, u: u32, v: u32, n: u32) -> Result<u32, Refusal>
    ensures { result ≡ if_type n t u v }
{
    if t == 1 && u == v {
        return Ok(u);
    }
    Err(Refusal::WrongType(n))
}

// The environment of the second operand of a node whose first has type t: a `let` adds it. Answers how many variables it has.
pub fn bind_type(space: &mut [u32], depth: usize, node: Node, t: u32) -> usize
    requires depth_lt_symbol_limit { depth < symbol_limit }
    requires variables_end_in_bounds { variables_end ≤ length space.old }
    ensures { BoundTypes node depth t space.old result space.new }
{
    if node.kind == LET {
        space[2 * depth] = t;
        return depth + 1;
    }
    depth
}

// The type t of a path is the one wanted, the first path's: any is, while there is none yet.
pub fn right_type(t: u32, wanted: Option<u32>) -> bool
    ensures { result ≡ eqb t (unwrap_or wanted t) }
{
    t == wanted.unwrap_or(t)
}
