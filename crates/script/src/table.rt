// The kinds of the nodes of a table, how wide a node is, and what its functions hand to each other. The functions are in `table`.
ghost use Rattle.std.specs.Prelude.{◌≡◌};

// How many numbers a node has in the flat form of a table.
pub const WIDTH: usize = 4;

// How many kinds of node there are.
pub const KINDS: u32 = 15;

// The kinds of the words.
pub const INT: u32 = 0;

pub const TRUE: u32 = 1;

pub const FALSE: u32 = 2;

pub const VAR: u32 = 3;

pub const ADD: u32 = 4;

pub const EQ: u32 = 5;

pub const NOT: u32 = 6;

pub const AND: u32 = 7;

pub const IF: u32 = 8;

pub const LET: u32 = 9;

pub const REF: u32 = 10;

pub const GET: u32 = 11;

pub const SET: u32 = 12;

pub const TYPED: u32 = 13;

pub const SYM: u32 = 14;

// The kinds below this one are those of leaves, whose operands are no nodes: `int`, `true`, `false` and `var`.
pub const LEAVES: u32 = ADD;

// What the operands of a kind are: numbers up to a limit, or nodes.
#[derive(Clone, Copy)]
pub enum Takes {
    Number(u32),
    Nodes,
}

// A table as a call lends it: places for nodes and entries, and how many of each are used. In flat form a node is `WIDTH` numbers; else it is a record.
#[derive(Clone, Copy)]
pub struct LentTable<'a, T> {
    pub table: &'a [T],
    pub nodes: usize,
    pub entries: &'a [u32],
    pub entry_count: usize,
}

impl<'a, T> LentTable<'a, T> {
    // The same entries and counts, over other places for the nodes.
    pub fn over<'b, U>(&'b self, table: &'b [U]) -> LentTable<'b, U>
        ensures table { result.table.now ≡ table.now }
        ensures nodes { result.nodes ≡ self.now.nodes }
        ensures entries { result.entries.now ≡ self.now.entries.now }
        ensures entry_count { result.entry_count ≡ self.now.entry_count }
    {
        LentTable {
            table,
            nodes: self.nodes,
            entries: self.entries,
            entry_count: self.entry_count,
        }
    }
}
