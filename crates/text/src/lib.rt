// Script text: what a text means and which text a script has, in `specs/`; and what the functions that read a text hand to each other. No function.
#![tactic(auto)]

use script::Node;

// What a line says: an entry's type or a node.
#[derive(Clone, Copy)]
pub enum Scanned {
    Entry(u32),
    Node(Node),
}
