// Notes on the typed blocks of a symbolic block, so that none is checked again without need. A block's type depends on the types of the variables that it
// mentions, and of these only the ones that are bound inside the `sym` may differ from path to path. A note has four numbers, the block's operand, how many
// variables there are and one more (0 in a note that says nothing), the block's type, how many variables follow; and two numbers for each of these, which
// one it is and its type.
#![tactic(auto)]

ghost use Rattle.std.specs.Prelude.{◌≡◌, suc, ◌≤◌, length};
ghost use Rattle.script.specs.Code.Forms.{form_of, tree_in};
ghost use Rattle.script.specs.Flat.{FormedNodes};
ghost use Rattle.rules.specs.Checking.Mentions.{mentions};
ghost use Rattle.terms.specs.Places.{symbol_limit};
ghost use Rattle.workspace.specs.Notes.{leaf_mentions, Readable, Recallable, Recallables, agrees_on, is_of, recalled_on, Named, named, Nameable, Names, Noted};
ghost use Rattle.workspace.specs.Places.{note_limit, space_size};

use script::Node;
use script::table::{IF, LEAVES, VAR};
use table::{has_one, node_at};
use workspace::{BASE, KEPT, NAMES, NOTE, NOTES, TURN};

// A node whose operands are no nodes is variable k.
fn is_variable(node: Node, k: u32) -> bool
    ensures { result ≡ leaf_mentions (form_of node.kind) node k }
{
    node.kind == VAR && node.a == k
}

// Whether node n mentions variable k.
fn mentions(table: &[u32], n: u32, k: u32) -> bool
    requires { FormedNodes table.now (suc n) }
    ensures { result ≡ mentions (tree_in table.now n) k }
{
    let node = node_at(table, n as usize);
    if node.kind < LEAVES {
        return is_variable(node, k);
    }
    if mentions(table, node.a, k) {
        return true;
    }
    if has_one(node.kind) {
        return false;
    }
    if mentions(table, node.b, k) {
        return true;
    }
    if node.kind == IF {
        return mentions(table, node.c, k);
    }
    false
}

// The variables that the note at this place names have the types that it names.
fn agrees(space: &[u32], at: usize) -> bool
    requires { Readable space.now at }
    ensures { result ≡ agrees_on space.now at }
{
    let count = space[at + 3] as usize;
    for i in 0..count {
        let k = space[at + 4 + 2 * i] as usize;
        if space[2 * k] != space[at + 5 + 2 * i] {
            return false;
        }
    }
    true
}

// The note at this place is one of node a with so many variables, which have the types that it names.
fn is_of(space: &[u32], at: usize, depth: usize, a: u32) -> bool
    requires { Recallable space.now at depth }
    ensures { result ≡ is_of space.now at depth a }
{
    space[at] == a && space[at + 1] as usize == depth + 1 && agrees(space, at)
}

// What the notes say of node a with so many variables.
pub fn recall(space: &[u32], depth: usize, a: u32) -> Option<u32>
    requires { Recallables space.now depth }
    ensures { result ≡ recalled_on space.now depth a 0 note_limit }
{
    for i in 0..KEPT {
        let at = NOTES + NOTE * i;
        if is_of(space, at, depth, a) {
            return Some(space[at + 2]);
        }
    }
    None
}

// Names variable k and its type in the note at this place, behind `count` others.
fn name_type(space: &mut [u32], at: usize, count: usize, k: u32)
    requires { Named space.old at count k }
    ensures { space.new ≡ named space.old at count k }
{
    space[at + 4 + 2 * count] = k;
    space[at + 5 + 2 * count] = space[2 * (k as usize)];
}

// Names the variables bound on the path that node a mentions, with their types, in the note at this place. Answers how many, or nothing if they are too many.
fn name_types(table: &[u32], space: &mut [u32], depth: usize, a: u32, at: usize) -> Option<usize>
    requires formed_nodes { FormedNodes table.now (suc a) }
    requires nameable { Nameable space.old depth at }
    ensures { Names (tree_in table.now a) depth at space.old result space.new }
{
    let mut count = 0;
    for k in space[BASE]..depth as u32 {
        if mentions(table, a, k) {
            if count == NAMES {
                return None;
            }
            name_type(space, at, count, k);
            count += 1;
        }
    }
    Some(count)
}

// Notes that node a has type t with so many variables, in place of the oldest note; not if it mentions too many.
pub fn note(table: &[u32], space: &mut [u32], depth: usize, a: u32, t: u32)
    requires formed_nodes { FormedNodes table.now (suc a) }
    requires depth_le_symbol_limit { depth ≤ symbol_limit }
    requires space_size_in_bounds { space_size ≤ length space.old }
    ensures { Noted table.now depth a t space.old space.new }
{
    let turn = space[TURN] as usize % KEPT;
    let at = NOTES + NOTE * turn;
    space[at + 1] = 0;
    if let Some(count) = name_types(table, space, depth, a, at) {
        space[at] = a;
        space[at + 1] = depth as u32 + 1;
        space[at + 2] = t;
        space[at + 3] = count as u32;
        space[TURN] = turn as u32 + 1;
    }
}
