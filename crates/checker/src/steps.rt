// The steps of a path upwards: a value goes to the frame that waits for it, until an operand is to be executed next or no frame is left.
ghost use Rattle.std.specs.Prelude.{◌≡◌, ◌+◌, ◌*◌, ◌≤◌, ◌<◌, length};
ghost use Rattle.terms.specs.Places.{symbol_limit};
ghost use Rattle.workspace.specs.Frames.{frame_in, Waitable};
ghost use Rattle.workspace.specs.Forks.{forked_in};
ghost use Rattle.workspace.specs.Places.{frames_size, space_size, fork_limit};
ghost use Rattle.workspace.specs.Rules.{Decidable};
ghost use Rattle.workspace.specs.State.{depth_in};
ghost use Rattle.checker.specs.Code.Going.{bound_to, unbound, moved_by, Branched, Lastable, Lasts, Returnable, Backs, Climbs, Leafable, LeafArrives};

use crate::path::choose;
use frames::forks::{assume, fork};
use frames::{leave, wait};
use known::forget;
use script::Refusal;
use script::table::{IF, LET};
use symbolic::{leaf, one, two};
use table::{has_one, node_at};
use workspace::{Branch, DEPTH, FOR_BODY, FOR_FIRST, FOR_NEXT, GOAL, KNOWN, Step, Typed};

// What comes next on a path: a value's type and place, or an operand to execute.
#[derive(Clone, Copy)]
pub enum Move {
    Value(u32, u32),
    Operand(u32),
}

// The step of a rule.
fn moved(step: Step) -> Result<Move, Refusal>
    ensures { result ≡ moved_by step }
{
    let (t, q) = step?;
    Ok(Move::Value(t, q))
}

// An `if` whose condition gave the value v: the branch that is taken. Where both can be, the
// condition gets the guard, and what is known of it is forgotten.
fn branch(
    space: &mut [u32],
    frames: &mut [u32],
    b: u32,
    c: u32,
    v: Typed,
    n: u32,
) -> Result<Move, Refusal>
    requires decidable { Decidable space.old v.0 v.1 }
    requires waitable { Waitable frames.old }
    requires frames_size_in_bounds { frames_size ≤ length frames.old }
    requires frames_bound { forked_in frames.old < fork_limit }
    requires space_bound { depth_in space.old ≤ symbol_limit }
    ensures { Branched b c n v.0 v.1 space.old frames.old space.new frames.new result }
{
    let (t, q) = v;
    wait(frames, n, FOR_NEXT, t, q);
    match choose(space, v, n)? {
        Branch::First => Ok(Move::Operand(b)),
        Branch::Second => Ok(Move::Operand(c)),
        Branch::Both => {
            fork(space, frames);
            forget(space, KNOWN);
            assume(space, q, true);
            Ok(Move::Operand(b))
        }
    }
}

// A value becomes a variable.
fn bind(space: &mut [u32], v: Typed)
    requires space_size_in_bounds { space_size ≤ length space.old }
    requires space_bound { depth_in space.old < symbol_limit }
    ensures { space.new ≡ bound_to space.old v.0 v.1 }
{
    let depth = space[DEPTH];
    space[2 * (depth as usize)] = v.0;
    space[2 * (depth as usize) + 1] = v.1;
    space[DEPTH] = depth + 1;
}

// The last variable is none any more.
fn unbind(space: &mut [u32])
    requires space_size_in_bounds { space_size ≤ length space.old }
    requires bound { 1 ≤ depth_in space.old }
    ensures { space.new ≡ unbound space.old }
{
    space[DEPTH] = space[DEPTH] - 1;
}

// Node n, whose first operand gave the value v, and the last one w.
fn last(
    kind: u32,
    awaits: u32,
    v: Typed,
    w: Typed,
    space: &mut [u32],
    n: u32,
) -> Result<Move, Refusal>
    requires { Lastable awaits space.old v.0 v.1 w.0 w.1 }
    ensures { Lasts kind awaits n v.0 v.1 w.0 w.1 space.old result space.new }
{
    if awaits == FOR_BODY {
        unbind(space);
        return Ok(Move::Value(w.0, w.1));
    }
    moved(two(kind, v, w, space, n))
}

// The value goes to the frame that waits for it.
fn back(table: &[u32], space: &mut [u32], frames: &mut [u32], v: Typed) -> Result<Move, Refusal>
    requires returnable { Returnable table.now space.old frames.old v.0 v.1 }
    requires bound { 1 ≤ frame_in frames.old }
    ensures { Backs table.now v.0 v.1 space.old frames.old result space.new frames.new }
{
    let (t, q) = v;
    let frame = leave(frames);
    let n = frame.node;
    let node = node_at(table, n as usize);
    if frame.awaits != FOR_FIRST {
        return last(node.kind, frame.awaits, (frame.x, frame.y), v, space, n);
    }
    if has_one(node.kind) {
        return moved(one(node.kind, v, space, n));
    }
    if node.kind == IF {
        return branch(space, frames, node.b, node.c, v, n);
    }
    if node.kind == LET {
        wait(frames, n, FOR_BODY, t, q);
        bind(space, v);
        return Ok(Move::Operand(node.b));
    }
    wait(frames, n, FOR_NEXT, t, q);
    Ok(Move::Operand(node.b))
}

// The value goes up until an operand is next; a value that no frame waits for is the path's.
pub fn climb(
    table: &[u32],
    space: &mut [u32],
    frames: &mut [u32],
    v: Typed,
) -> Result<Move, Refusal>
    requires { Returnable table.now space.old frames.old v.0 v.1 }
    ensures { Climbs table.now v.0 v.1 space.old frames.old result space.new frames.new }
{
    let (mut u, mut s) = v;
    while frames[GOAL] != 0 {
        match back(table, space, frames, (u, s))? {
            Move::Value(w, r) => {
                u = w;
                s = r;
            }
            Move::Operand(m) => return Ok(Move::Operand(m)),
        }
    }
    Ok(Move::Value(u, s))
}

// The leaf n on a path: its value goes up.
pub fn leaf_up(
    table: &[u32],
    space: &mut [u32],
    frames: &mut [u32],
    n: u32,
) -> Result<Move, Refusal>
    requires { Leafable table.now space.old frames.old n }
    ensures { LeafArrives table.now n space.old frames.old result space.new frames.new }
{
    let node = node_at(table, n as usize);
    let depth = space[DEPTH] as usize;
    let value = leaf(node, space, depth, n)?;
    climb(table, space, frames, value)
}
