// A path's own numbers: the decision at an `if`, the start.
ghost use Rattle.std.specs.Prelude.{suc, ◌*◌, ◌<◌, ◌≤◌, length};
ghost use Rattle.terms.specs.Places.{symbol_limit};
ghost use Rattle.workspace.specs.Paths.{Blank, Starting};
ghost use Rattle.workspace.specs.Rules.{Decidable, Chooses, Started};
ghost use Rattle.workspace.specs.State.{types_on};

use decision::decide;
use frames::forks::assume;
use rows::Decision;
use script::Refusal;
use symbolic::fresh;
use terms::references::Origin;
use terms::{CONSTANT, push};
use workspace::{BASE, Branch, CONDITION, DEPTH, KNOWN, Typed};

// The decision at an `if` whose condition gave the value v.
pub fn choose(space: &mut [u32], v: Typed, n: u32) -> Result<Branch, Refusal>
    requires { Decidable space.old v.0 v.1 }
    ensures { Chooses n v.0 v.1 space.old result space.new }
{
    let (t, q) = v;
    if t != 1 {
        return Err(Refusal::WrongType(n));
    }
    let condition = space[CONDITION];
    match decide(space, KNOWN, condition, q) {
        Decision::TooMany => Err(Refusal::TooManyAtoms(n)),
        Decision::Both => Ok(Branch::Both),
        Decision::OnlyTrue => {
            assume(space, q, true);
            Ok(Branch::First)
        }
        Decision::OnlyFalse => {
            assume(space, q, false);
            Ok(Branch::Second)
        }
    }
}

// Each variable becomes a symbol of its type, numbered from 0 on; row 0 is `true`, and there are no notes.
pub fn start(types: &[u32], space: &mut [u32], depth: usize)
    requires depth_in_bounds { 2 * depth ≤ length types.now }
    requires depth_le_symbol_limit { depth ≤ symbol_limit }
    requires blank { Blank space.old }
    ensures { Started depth (types_on types.now depth) space.new }
{
    push(space, CONSTANT, 1, 0);
    for i in 0..depth {
        start_variable(types, space, i);
    }
    space[BASE] = depth as u32;
    space[DEPTH] = depth as u32;
}

// The variable at place i becomes a fresh symbol.
fn start_variable(types: &[u32], space: &mut [u32], i: usize)
    requires i_in_bounds { 2 * i < length types.now }
    requires i_lt_symbol_limit { i < symbol_limit }
    requires starting { Starting types.now space.old i }
    ensures { Starting types.now space.new (suc i) }
{
    let t = types[2 * i];
    let place = fresh(space, t, Origin::Initial);
    space[2 * i] = t;
    space[2 * i + 1] = place;
}
