// Evaluation by the table: each node runs its operands, whose numbers are smaller, and then its rule.
ghost use Rattle.script.specs.Code.Forms.{node_in, tree_in, bound_on};
ghost use Rattle.rules.specs.Evaluation.{eval};
ghost use Rattle.rules.specs.Running.{values_of};
ghost use Rattle.rules.specs.Running.Laws.{InRange};
ghost use Rattle.operators.specs.Steps.{whole_of, Variables, Bound, rest_on, Ready, Halfway, Runs};

use cells::store;
use operators::steps::{next_operand, parts_of, whole};
use operators::{Parts, Step, leaf, one, two};
use script::table::{LEAVES, LET};
use script::{Node, Value};
use table::{has_one, node_at};

// The environment of the operand of a node that comes after the first, which gave v: a `let` adds v. Answers how many variables it has.
fn bind(environment: &mut [u8], depth: usize, node: Node, v: Value) -> usize
    requires variables { Variables environment.old depth 1 }
    requires in_range { InRange v }
    ensures { Bound environment.old depth (bound_on node v (values_of depth environment.old)) environment.new result }
{
    if node.kind == LET {
        store(environment, depth, v);
        return depth + 1;
    }
    depth
}

// Goes on with node n once its first operand gave v: runs the next operand, and then the rule.
#[cycle(rest_run_node)]
fn rest(
    table: &[u32],
    environment: &mut [u8],
    depth: usize,
    cells: &mut [u8],
    used: u32,
    n: u32,
    v: Value,
) -> Step
    requires { Halfway table.now environment.old depth cells.old used n v }
    ensures { Runs (rest_on table.now n (node_in table.now n) v (values_of depth environment.old) (values_of used cells.old)) depth environment.old environment.new result cells.old cells.new }
{
    let node = node_at(table, n as usize);
    let m = next_operand(node, v).ok_or((n, used))?;
    let inner = bind(environment, depth, node, v);
    let (w, count) = whole(run_node(table, environment, inner, cells, used, m))?;
    two(node.kind, v, w, cells, count, n)
}

// Runs node n: the environment is its first `depth` values, the cells their first `used`.
#[cycle(rest_run_node)]
pub fn run_node(
    table: &[u32],
    environment: &mut [u8],
    depth: usize,
    cells: &mut [u8],
    used: u32,
    n: u32,
) -> Parts
    requires { Ready table.now environment.old depth cells.old used n }
    ensures { Runs (eval (tree_in table.now n) (values_of depth environment.old) (values_of used cells.old)) depth environment.old environment.new (whole_of result) cells.old cells.new }
{
    let node = node_at(table, n as usize);
    if node.kind < LEAVES {
        return parts_of(leaf(node, environment, depth, used, n));
    }
    match whole(run_node(table, environment, depth, cells, used, node.a)) {
        Err((at, count)) => Parts::Failed(at, count),
        Ok((v, count)) => {
            if has_one(node.kind) {
                return parts_of(one(node.kind, v, cells, count, n));
            }
            parts_of(rest(table, environment, depth, cells, count, n, v))
        }
    }
}
