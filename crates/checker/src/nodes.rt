// The typed rules and the symbolic rules by the table: each node is checked or executed after its operands, whose numbers are smaller. A typed block in a
// symbolic block hands over to the typed rules, on the same workspace, unless a note has its type; a `sym` in typed mode follows its paths in a workspace and
// frames of its own.
ghost use Rattle.std.specs.Prelude.{false, ◌≡◌, ◌≤◌, ◌<◌};
ghost use Rattle.script.specs.Code.Forms.{node_in, tree_in};
ghost use Rattle.script.specs.Rows.{typed_form, node_operands};
ghost use Rattle.script.specs.Rows.Kinds.{kind_for};
ghost use Rattle.rules.specs.Checking.{check, exec};
ghost use Rattle.rules.specs.Paths.{start, leaves};
ghost use Rattle.rules.specs.Symbolic.{symbols};
ghost use Rattle.rules.specs.SymbolicRules.{verdict};
ghost use Rattle.workspace.specs.Frames.{waits_for};
ghost use Rattle.workspace.specs.Notes.{Noting, Blocked};
ghost use Rattle.workspace.specs.Rules.{Checkable, Judged};
ghost use Rattle.workspace.specs.State.{types_on};
ghost use Rattle.checker.specs.Code.Going.{Enterable, Arrives, AtEnd, PathEnds, Walkable, Walks};

use crate::forks::resume;
use crate::path::start;
use crate::steps::{Move, climb, leaf_up};
use frames::descend;
use frames::forks::none_left;
use notes::{note, recall};
use script::Refusal;
use script::table::{IF, LEAVES, SYM, TYPED};
use symbolic::typed_result;
use table::{has_one, node_at};
use types::{bind_type, if_type, leaf_type, one_type, right_type, two_type};
use workspace::{DEPTH, FRAMES, SPACE};
use write_log::consistent;

// How a path ended: as the last path, or with another one after it, which goes on from a node; the type is the path's.
#[derive(Clone, Copy)]
pub enum Walked {
    Last(u32),
    More(u32, u32),
}

// At the end of a path of type t: the log first, then the type.
fn path_end(
    table: &[u32],
    space: &mut [u32],
    frames: &mut [u32],
    n: u32,
    t: u32,
    wanted: Option<u32>,
) -> Result<Walked, Refusal>
    requires { AtEnd table.now space.old frames.old t }
    ensures { PathEnds table.now n t wanted space.old frames.old result space.new frames.new }
{
    if !consistent(space) {
        return Err(Refusal::InconsistentLog(n));
    }
    if !right_type(t, wanted) {
        return Err(Refusal::PathTypesDiffer(n));
    }
    if none_left(frames) {
        return Ok(Walked::Last(t));
    }
    Ok(Walked::More(t, resume(table, space, frames)))
}

// Follows a path of the `sym` n from node m on to its end.
#[cycle(arrive_block_type_block_up_check_node_check_several_operand_type_paths_walk)]
fn walk(
    table: &[u32],
    space: &mut [u32],
    frames: &mut [u32],
    limit: u32,
    n: u32,
    m: u32,
    wanted: Option<u32>,
) -> Result<Walked, Refusal>
    requires { Walkable limit table.now space.old frames.old n m }
    ensures { Walks limit table.now n m wanted space.old frames.old result space.new frames.new }
{
    let mut next = m;
    loop {
        let inner = descend(table, frames, next);
        match arrive(table, space, frames, limit, inner)? {
            Move::Value(u, _) => return path_end(table, space, frames, n, u, wanted),
            Move::Operand(k) => next = k,
        }
    }
}

// The `sym` n in typed mode: its paths in order, at most `limit`.
#[cycle(arrive_block_type_block_up_check_node_check_several_operand_type_paths_walk)]
fn paths(
    table: &[u32],
    types: &[u32],
    depth: usize,
    limit: u32,
    n: u32,
    a: u32,
) -> Result<u32, Refusal>
    requires checkable { Checkable table.now types.now depth a }
    requires a_lt_n { a < n }
    ensures { result ≡ verdict n limit (leaves (exec limit (tree_in table.now a) (symbols 0 (types_on types.now depth)) (start depth))) }
{
    let mut space = [0u32; SPACE];
    let mut frames = [0u32; FRAMES];
    start(types, &mut space, depth);
    let mut wanted = None;
    let mut next = a;
    for _followed in 0..limit {
        match walk(table, &mut space, &mut frames, limit, n, next, wanted)? {
            Walked::Last(t) => return Ok(t),
            Walked::More(t, m) => {
                wanted = Some(t);
                next = m;
            }
        }
    }
    Err(Refusal::TooManyPaths(n))
}

// The answer, its numbers copied one by one: copied as they stand, they would be read in pieces that were not written as such, and a processor waits for that.
fn copied(answer: Result<u32, Refusal>) -> Result<u32, Refusal>
    ensures { result ≡ answer }
{
    match answer {
        Ok(t) => Ok(t),
        Err(why) => Err(why),
    }
}

// The type of an operand m of a node with several.
#[cycle(arrive_block_type_block_up_check_node_check_several_operand_type_paths_walk)]
fn operand_type(
    table: &[u32],
    space: &mut [u32],
    depth: usize,
    limit: u32,
    m: u32,
) -> Result<u32, Refusal>
    requires { Checkable table.now space.old depth m }
    ensures { Judged (check limit (tree_in table.now m) (types_on space.old depth)) depth space.old result space.new }
{
    let node = node_at(table, m as usize);
    if node.kind < LEAVES {
        return leaf_type(node, space, depth, m);
    }
    if has_one(node.kind) {
        return copied(check_node(table, space, depth, limit, m));
    }
    copied(check_several(table, space, depth, limit, m))
}

// Checks node n in typed mode, which has two operands or three.
#[cycle(arrive_block_type_block_up_check_node_check_several_operand_type_paths_walk)]
fn check_several(
    table: &[u32],
    space: &mut [u32],
    depth: usize,
    limit: u32,
    n: u32,
) -> Result<u32, Refusal>
    requires checkable { Checkable table.now space.old depth n }
    requires bound { 2 ≤ node_operands (node_in table.now n).kind }
    ensures { Judged (check limit (tree_in table.now n) (types_on space.old depth)) depth space.old result space.new }
{
    let node = node_at(table, n as usize);
    let t = operand_type(table, space, depth, limit, node.a)?;
    let inner = bind_type(space, depth, node, t);
    let u = operand_type(table, space, inner, limit, node.b)?;
    if node.kind == IF {
        let v = operand_type(table, space, depth, limit, node.c)?;
        return if_type(t, u, v, n);
    }
    two_type(node.kind, t, u, n)
}

// Checks node n in typed mode: the environment is the types of the first `depth` variables.
#[cycle(arrive_block_type_block_up_check_node_check_several_operand_type_paths_walk)]
pub fn check_node(
    table: &[u32],
    space: &mut [u32],
    depth: usize,
    limit: u32,
    n: u32,
) -> Result<u32, Refusal>
    requires { Checkable table.now space.old depth n }
    ensures { Judged (check limit (tree_in table.now n) (types_on space.old depth)) depth space.old result space.new }
{
    let node = node_at(table, n as usize);
    if node.kind < LEAVES {
        return leaf_type(node, space, depth, n);
    }
    if node.kind == SYM {
        return copied(paths(table, space, depth, limit, n, node.a));
    }
    if has_one(node.kind) {
        let t = check_node(table, space, depth, limit, node.a)?;
        return one_type(node.kind, t, n);
    }
    copied(check_several(table, space, depth, limit, n))
}

// The type of a typed block on a path, whose operand is node a: what the notes say, or else what the typed rules give, which is then noted.
#[cycle(arrive_block_type_block_up_check_node_check_several_operand_type_paths_walk)]
fn block_type(
    table: &[u32],
    space: &mut [u32],
    depth: usize,
    limit: u32,
    a: u32,
) -> Result<u32, Refusal>
    requires checkable { Checkable table.now space.old depth a }
    requires noting { Noting limit table.now space.old depth }
    ensures { Blocked limit table.now (check limit (tree_in table.now a) (types_on space.old depth)) depth space.old result space.new }
{
    if let Some(t) = recall(space, depth, a) {
        return Ok(t);
    }
    let t = check_node(table, space, depth, limit, a)?;
    note(table, space, depth, a, t);
    Ok(t)
}

// The typed block n on a path: a symbol of its type goes up.
#[cycle(arrive_block_type_block_up_check_node_check_several_operand_type_paths_walk)]
fn block_up(
    table: &[u32],
    space: &mut [u32],
    frames: &mut [u32],
    limit: u32,
    n: u32,
) -> Result<Move, Refusal>
    requires enterable { Enterable limit table.now space.old frames.old n }
    requires n_value { (node_in table.now n).kind ≡ kind_for typed_form }
    ensures { Arrives limit table.now n space.old frames.old result space.new frames.new }
{
    let a = node_at(table, n as usize).a;
    let depth = space[DEPTH] as usize;
    let t = block_type(table, space, depth, limit, a)?;
    let value = typed_result(t, space, n)?;
    climb(table, space, frames, value)
}

// A node on a path that waits for no operand: a leaf or a typed block.
#[cycle(arrive_block_type_block_up_check_node_check_several_operand_type_paths_walk)]
fn arrive(
    table: &[u32],
    space: &mut [u32],
    frames: &mut [u32],
    limit: u32,
    n: u32,
) -> Result<Move, Refusal>
    requires enterable { Enterable limit table.now space.old frames.old n }
    requires n_value { waits_for (node_in table.now n).kind ≡ false }
    ensures { Arrives limit table.now n space.old frames.old result space.new frames.new }
{
    if node_at(table, n as usize).kind == TYPED {
        return block_up(table, space, frames, limit, n);
    }
    leaf_up(table, space, frames, n)
}
