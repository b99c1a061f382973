// The symbolic rules: what node n gives on a path once its operands have given theirs. A value is its type's code and its place: a row of the terms, or what
// `terms::references` says of a reference.
#![tactic(auto)]

ghost use Rattle.std.specs.Prelude.{◌*◌, ◌≤◌, length};
ghost use Rattle.script.specs.Code.Forms.{form_of};
ghost use Rattle.script.specs.Rows.{var_form, unary_form, binary_form, not_op, ref_op, get_op, eq_op, set_op};
ghost use Rattle.terms.specs.References.{origin_as};
ghost use Rattle.workspace.specs.Paths.{Fresh};
ghost use Rattle.workspace.specs.Rules.{Leaf, One, Two, OfBoth, After, Operable};
ghost use Rattle.workspace.specs.State.{Room};

use script::table::{ADD, AND, EQ, GET, INT, NOT, REF, SET, TRUE, VAR};
use script::{Node, Refusal};
use terms::atoms::{equal_references, symbols_atom};
use terms::references::{Origin, reference};
use terms::{CONJUNCTION, CONSTANT, EQUALITY, NEGATION, NUMBER, SUM, SYMBOL, TRUTH, push};
use types::DEEPEST;
use words::equal_words;
use workspace::{NEXT, Step, Typed};
use write_log::{consistent, forget, lookup, write};

// A fresh symbol of type t, with this origin: its place.
pub fn fresh(space: &mut [u32], t: u32, origin: Origin) -> u32
    requires { Room space.old 1 }
    ensures { Fresh (origin_as origin) t space.old result space.new }
{
    let symbol = space[NEXT];
    space[NEXT] = symbol + 1;
    match t {
        0 => push(space, SYMBOL, symbol, 0),
        1 => symbols_atom(space, TRUTH, symbol, symbol),
        _ => reference(symbol, origin),
    }
}

// `var`: the value at the place of the environment that the node names.
fn variable(node: Node, space: &[u32], depth: usize, n: u32) -> Step
    requires { 2 * depth ≤ length space.now }
    ensures { Leaf var_form n node depth space.now result space.now }
{
    let i = node.a as usize;
    if i < depth {
        return Ok((space[2 * i], space[2 * i + 1]));
    }
    Err(Refusal::UnknownVariable(n))
}

// A node whose operands are no nodes: `int`, `true`, `false` and `var`.
pub fn leaf(node: Node, space: &mut [u32], depth: usize, n: u32) -> Step
    requires room { Room space.old 1 }
    requires depth_in_bounds { 2 * depth ≤ length space.old }
    ensures { Leaf (form_of node.kind) n node depth space.old result space.new }
{
    let kind = node.kind;
    match kind {
        INT => Ok((0, push(space, NUMBER, node.a, 0))),
        TRUE => Ok((1, push(space, CONSTANT, 1, 0))),
        VAR => variable(node, space, depth, n),
        _ => Ok((1, push(space, CONSTANT, 0, 0))),
    }
}

// `not`.
fn negation(v: Typed, space: &mut [u32], n: u32) -> Step
    requires { Room space.old 1 }
    ensures { One (unary_form not_op) n v.0 v.1 space.old result space.new }
{
    let (t, q) = v;
    if t != 1 {
        return Err(Refusal::WrongType(n));
    }
    Ok((1, push(space, NEGATION, q, 0)))
}

// `ref`: a fresh symbol, and its value in the log.
fn make_cell(v: Typed, space: &mut [u32], n: u32) -> Step
    requires { Room space.old 1 }
    ensures { One (unary_form ref_op) n v.0 v.1 space.old result space.new }
{
    let t = v.0;
    if DEEPEST <= t {
        return Err(Refusal::TooManyReferences(n));
    }
    let place = fresh(space, t + 2, Origin::Made);
    write(space, (t + 2, place), v);
    Ok((t + 2, place))
}

// `get`: what the log has, of whatever type; or else, if the log is consistent, a fresh symbol.
fn read_cell(v: Typed, space: &mut [u32], n: u32) -> Step
    requires { Room space.old 1 }
    ensures { One (unary_form get_op) n v.0 v.1 space.old result space.new }
{
    let (t, q) = v;
    if t < 2 {
        return Err(Refusal::WrongType(n));
    }
    match lookup(space, q) {
        Some((u, s)) => Ok((u, s)),
        None => {
            if !consistent(space) {
                return Err(Refusal::InconsistentLog(n));
            }
            Ok((t - 2, fresh(space, t - 2, Origin::Other)))
        }
    }
}

// A node with one operand that is a node, which gave the value v.
pub fn one(kind: u32, v: Typed, space: &mut [u32], n: u32) -> Step
    requires { Room space.old 1 }
    ensures { One (form_of kind) n v.0 v.1 space.old result space.new }
{
    match kind {
        NOT => negation(v, space, n),
        REF => make_cell(v, space, n),
        GET => read_cell(v, space, n),
        _ => Ok(v),
    }
}

// `add` and `and`: both values are of the type wanted, and so is the row of this operator.
fn both(wanted: u32, op: u32, v: Typed, w: Typed, space: &mut [u32], n: u32) -> Step
    requires { Room space.old 1 }
    ensures { OfBoth wanted op n v.0 v.1 w.0 w.1 space.old result space.new }
{
    let (t, q) = v;
    let (u, s) = w;
    if t == wanted && u == wanted {
        return Ok((wanted, push(space, op, q, s)));
    }
    Err(Refusal::WrongType(n))
}

// `eq`.
fn equality(v: Typed, w: Typed, space: &mut [u32], n: u32) -> Step
    requires { Operable space.old v.0 v.1 w.0 w.1 }
    ensures { Two (binary_form eq_op) n v.0 v.1 w.0 w.1 space.old result space.new }
{
    let (t, q) = v;
    let (u, s) = w;
    if t != u {
        return Err(Refusal::WrongType(n));
    }
    match t {
        0 => Ok((1, equal_words(space, q, s))),
        1 => Ok((1, push(space, EQUALITY, q, s))),
        _ => Ok((1, equal_references(space, q, s))),
    }
}

// `set`: any value is logged.
fn write_cell(v: Typed, w: Typed, space: &mut [u32], n: u32) -> Step
    requires { Room space.old 1 }
    ensures { Two (binary_form set_op) n v.0 v.1 w.0 w.1 space.old result space.new }
{
    if v.0 < 2 {
        return Err(Refusal::WrongType(n));
    }
    write(space, v, w);
    Ok(w)
}

// A node whose first operand gave the value v, and the next one w.
pub fn two(kind: u32, v: Typed, w: Typed, space: &mut [u32], n: u32) -> Step
    requires { Operable space.old v.0 v.1 w.0 w.1 }
    ensures { Two (form_of kind) n v.0 v.1 w.0 w.1 space.old result space.new }
{
    match kind {
        ADD => both(0, SUM, v, w, space, n),
        EQ => equality(v, w, space, n),
        AND => both(1, CONJUNCTION, v, w, space, n),
        SET => write_cell(v, w, space, n),
        _ => Ok(w),
    }
}

// After a typed block whose operand has type t: a consistent log, of which no write counts then, and a fresh symbol.
pub fn typed_result(t: u32, space: &mut [u32], n: u32) -> Step
    requires { Room space.old 1 }
    ensures { After n t space.old result space.new }
{
    if !consistent(space) {
        return Err(Refusal::InconsistentLog(n));
    }
    forget(space);
    Ok((t, fresh(space, t, Origin::Other)))
}
