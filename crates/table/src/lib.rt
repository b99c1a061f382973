// A table in its flat form: the operand counts of the kinds, a well-formed node, the unused node, and the one door to a node.
#![tactic(auto)]

ghost use Rattle.std.specs.Prelude.{◌≡◌, ◌*◌, eqb, get_or};
ghost use Rattle.std.proofs.lemmas.List.Edits.{sets};
ghost use Rattle.script.specs.Flat.{numbers_of, node_width, nodes_in, HasNode};
ghost use Rattle.script.specs.Rows.{row_of, operand_count, takes_of, node_operands};
ghost use Rattle.script.specs.Table.{unused, node_at, fields, right_node, is_sym_node};
ghost use Rattle.script.specs.Code.TableTests.{right_field};

pub mod clearing;

use script::table::{FALSE, GET, INT, KINDS, LEAVES, NOT, REF, SYM, TYPED, Takes, VAR, WIDTH};
use script::{Node, Script};

// How many operands each kind takes: the one table of operand counts, for the reader, the writer and the tests of a table.
const COUNTS: [u8; KINDS as usize] = [1, 0, 0, 1, 2, 2, 1, 2, 3, 2, 1, 1, 2, 1, 1];

// How many operands a kind takes.
pub fn operand_count(kind: u32) -> u32
    ensures { result ≡ operand_count kind }
{
    if kind < KINDS {
        return COUNTS[kind as usize] as u32;
    }
    0
}

// What the operands of a kind are.
pub fn kind_takes(kind: u32) -> Takes
    ensures { result ≡ takes_of kind }
{
    match kind {
        INT => Takes::Number(Script::WORD),
        VAR => Takes::Number(Script::VARIABLE),
        _ => Takes::Nodes,
    }
}

// How many operands of a kind are nodes: none of a leaf, else all.
pub fn node_operands(kind: u32) -> u32
    ensures { result ≡ node_operands kind }
{
    if kind < LEAVES {
        return 0;
    }
    operand_count(kind)
}

// A node of this kind has one operand that is a node.
pub fn has_one(kind: u32) -> bool
    ensures { result ≡ eqb (node_operands kind) 1 }
{
    match kind {
        NOT => true,
        REF => true,
        GET => true,
        TYPED => true,
        SYM => true,
        _ => false,
    }
}

// The operand of a node at place k, 0 to 2.
pub fn operand_at(n: Node, k: u32) -> u32
    ensures { result ≡ get_or (fields n) k 0 }
{
    match k {
        0 => n.a,
        1 => n.b,
        2 => n.c,
        _ => 0,
    }
}

// The node is a `sym`.
pub fn is_sym(n: Node) -> bool
    ensures { result ≡ is_sym_node n }
{
    n.kind == SYM
}

// The operand o at place k of a node with number i, whose kind takes `count` operands: an earlier node or a number in its range where the kind
// takes it, else 0.
fn right_field(kind: u32, count: u32, k: u32, o: u32, i: usize) -> bool
    requires { count ≡ operand_count kind }
    ensures { result ≡ right_field (row_of kind) k o i }
{
    if kind < KINDS {
        if k < count {
            return match kind_takes(kind) {
                Takes::Number(most) => o <= most,
                Takes::Nodes => (o as usize) < i,
            };
        }
        return o == 0;
    }
    false
}

// Node i is well formed: 4.
pub fn well_formed(n: Node, i: usize) -> bool
    ensures { result ≡ right_node (row_of n.kind) i n }
{
    let count = operand_count(n.kind);
    if right_field(n.kind, count, 0, n.a, i) {
        if right_field(n.kind, count, 1, n.b, i) {
            return right_field(n.kind, count, 2, n.c, i);
        }
    }
    false
}

// The node that an unused place holds: `false`.
pub fn unused() -> Node
    ensures { result ≡ unused }
{
    Node {
        kind: FALSE,
        a: 0,
        b: 0,
        c: 0,
    }
}

// The node at place i of a table.
pub fn node_at(table: &[u32], i: usize) -> Node
    requires { HasNode table.now i }
    ensures { result ≡ node_at (nodes_in table.now) i }
{
    let at = WIDTH * i;
    Node {
        kind: table[at],
        a: table[at + 1],
        b: table[at + 2],
        c: table[at + 3],
    }
}

// A table with this node at place i.
pub fn put_node(table: &mut [u32], i: usize, n: Node)
    requires { HasNode table.old i }
    ensures { table.new ≡ sets table.old (node_width * i) (numbers_of n) }
{
    let at = WIDTH * i;
    table[at] = n.kind;
    table[at + 1] = n.a;
    table[at + 2] = n.b;
    table[at + 3] = n.c;
}
