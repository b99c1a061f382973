// The terms of a path: its words and truths, each a row that refers to earlier rows. They stand in the workspace of a `sym`: a lent slice of numbers
// whose first part is the environment, two numbers a variable; then come the count of the rows and the rows, three numbers each; then what the checker
// keeps of a path.
#![tactic(auto)]

ghost use Rattle.std.specs.Prelude.{◌≡◌, ◌+◌, ◌*◌, ◌<◌, length};
ghost use Rattle.terms.specs.Places.{row_at};
ghost use Rattle.terms.specs.Terms.{row_in, Space, pushed, count_in};

pub mod atoms;
pub mod references;

use script::Script;

// At most how many variables are in scope, and how many symbols a path has: as many as entries and nodes together.
pub const VARIABLES: usize = Script::ENTRIES + Script::NODES;

// Where the count of the rows stands.
pub const COUNT: usize = 2 * VARIABLES;

// Where the rows begin.
pub const FIRST_ROW: usize = COUNT + 1;

// At most how many rows a node makes.
pub const ROWS_A_NODE: usize = 1;

// At most how many rows a path has: one for `true`, one for each variable at its start, and those of its nodes. Variables and nodes are together at most
// `VARIABLES`, and a node makes as many rows as a variable or more.
pub const ROWS: usize = 1 + Script::ENTRIES + ROWS_A_NODE * Script::NODES;

// The number of a row where many are listed: below `ROWS`.
pub type RowNumber = u8;

// Where the rows end.
pub const END: usize = FIRST_ROW + 3 * ROWS;

// What a row is: a word (a number, a symbol, the sum of two rows), a truth (a constant, the negation of a row, the conjunction or the equality of two,
// the first of two without the second), or an atom (a truth symbol, a pair of reference symbols, the difference of two words). The order counts: truths
// with operands stand together, and the atoms come last.
pub const NUMBER: u32 = 0;

pub const SYMBOL: u32 = 1;

pub const SUM: u32 = 2;

pub const CONSTANT: u32 = 3;

pub const NEGATION: u32 = 4;

pub const CONJUNCTION: u32 = 5;

pub const EQUALITY: u32 = 6;

pub const EXCLUSION: u32 = 7;

pub const TRUTH: u32 = 8;

pub const PAIR: u32 = 9;

pub const DIFFERENCE: u32 = 10;

// The operators of atoms are those from here on.
pub const FIRST_ATOM: u32 = TRUTH;

// A row: what it is, and its two operands.
#[derive(Clone, Copy, PartialEq, Eq)]
pub struct Row {
    pub op: u32,
    pub a: u32,
    pub b: u32,
}

// Row i.
pub fn row_at(space: &[u32], i: usize) -> Row
    requires { row_at i + 2 < length space.now }
    ensures { result ≡ row_in space.now i }
{
    Row {
        op: space[FIRST_ROW + 3 * i],
        a: space[FIRST_ROW + 3 * i + 1],
        b: space[FIRST_ROW + 3 * i + 2],
    }
}

// One row more; answers its number.
pub fn push(space: &mut [u32], op: u32, a: u32, b: u32) -> u32
    requires { Space space.old 1 }
    ensures value { result ≡ count_in space.old }
    ensures space_after { space.new ≡ pushed space.old op a b }
{
    let n = space[COUNT];
    let at = FIRST_ROW + 3 * (n as usize);
    space[at] = op;
    space[at + 1] = a;
    space[at + 2] = b;
    space[COUNT] = n + 1;
    n
}
