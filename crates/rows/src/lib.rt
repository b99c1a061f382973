// The rows that a decision looks at: which of them the condition and the guard reach, by a mark on each, and how many atoms are among them. What the
// functions of a decision compute of the lent numbers stands in `specs/`.
#![tactic(auto)]

ghost use Rattle.std.specs.Prelude.{◌&&◌, ◌≡◌, ◌+◌, ◌-◌, ◌<◌, ◌≤◌, length, bit_and, bit_or};
ghost use Rattle.terms.specs.Places.{row_limit};
ghost use Rattle.rows.specs.Decision.{branches_of};
ghost use Rattle.rows.specs.Code.{above, Room, Low, operand_below, reached, mark_row, marked, seen_after, Visited, counts_of, blocks_of, ones, non_zero};

use terms::{CONJUNCTION, EXCLUSION, FIRST_ATOM, NEGATION, Row, row_at};

// Which branches are taken: none, since there are too many atoms; both; or one.
#[derive(Clone, Copy, PartialEq, Eq)]
pub enum Decision {
    TooMany,
    Both,
    OnlyTrue,
    OnlyFalse,
}

// How many atoms are marked, how many of them the guard reaches, and how many both do.
#[derive(Clone, Copy)]
pub struct Counts {
    pub all: u32,
    pub own: u32,
    pub shared: u32,
}

// At most how many different atoms a decision has.
pub const ATOMS: u32 = 10;

// How many numbers are kept of what is known of a condition.
pub const KNOWN_SIZE: usize = 44;

// What a mark says: the condition reaches the row, the guard does, or both do. So a row that the guard reaches has at least its mark.
pub const CONDITION: u8 = 1;

pub const GUARD: u8 = 2;

const BOTH: u8 = 3;

// A word of which each bit is 1.
pub const ONES: u64 = u64::MAX;

// The row after the greater of two.
#[tactic(auto, unfolding(crate::specs::Code::above))]
pub fn above(a: usize, b: usize) -> usize
    requires { (a < row_limit) × (b < row_limit) }
    ensures { result ≡ above a b }
{
    a.max(b) + 1
}

// Below which row an operand of row i lies that the operators from `least` on have; 0 if the row is not marked or has none.
#[tactic(auto, unfolding(crate::specs::Code::operand_below))]
fn operand_below(least: u32, op: u32, mark: u8, i: usize) -> usize
    ensures { result ≡ operand_below least op mark i }
{
    if mark == 0 || op < least || EXCLUSION < op {
        return 0;
    }
    i
}

// Adds a mark to row a, if it is below the row given.
#[tactic(auto, unfolding(crate::specs::Code::reached))]
fn reach(marks: &mut [u8], a: u32, below: usize, mark: u8)
    requires { below ≤ length marks.old }
    ensures { marks.new ≡ reached marks.old a below mark }
{
    let k = a as usize;
    if k < below {
        marks[k] |= mark;
    }
}

// The operands of row i have its mark too.
#[tactic(auto, unfolding(crate::specs::Code::mark_row, crate::specs::Code::operand_below, crate::specs::Code::reached))]
fn mark_row(marks: &mut [u8], row: Row, i: usize)
    requires { i < length marks.old }
    ensures { marks.new ≡ mark_row marks.old row i }
{
    let mark = marks[i];
    reach(marks, row.a, operand_below(NEGATION, row.op, mark, i), mark);
    reach(
        marks,
        row.b,
        operand_below(CONJUNCTION, row.op, mark, i),
        mark,
    );
}

// How many atoms with at least a mark are seen after a row.
#[tactic(auto, unfolding(crate::specs::Code::seen_after))]
fn seen_after(op: u32, mark: u8, least: u8, seen: u32) -> u32
    requires { seen < row_limit }
    ensures { result ≡ seen_after op mark least seen }
{
    if mark < least || op < FIRST_ATOM {
        return seen;
    }
    seen + 1
}

// Row i: an atom is counted, of another row the operands are marked. Most rows have no mark.
fn visit(space: &[u32], marks: &mut [u8], i: usize, counts: Counts) -> Counts
    requires room { Room space.now (i + 1) marks.old }
    requires low { Low counts }
    ensures { Visited space.now marks.old i counts result marks.new }
{
    let mark = marks[i];
    if mark == 0 {
        return counts;
    }
    let row = row_at(space, i);
    if FIRST_ATOM <= row.op {
        return Counts {
            all: seen_after(row.op, mark, CONDITION, counts.all),
            own: seen_after(row.op, mark, GUARD, counts.own),
            shared: seen_after(row.op, mark, BOTH, counts.shared),
        };
    }
    mark_row(marks, row, i);
    counts
}

// Marks what the marked rows below n reach, from the last row down, and counts the atoms.
pub fn mark_all(space: &[u32], n: usize, marks: &mut [u8]) -> Counts
    requires { Room space.now n marks.old }
    ensures value { result ≡ counts_of space.now marks.new n }
    ensures marks_after { marks.new ≡ marked space.now n marks.old }
{
    let mut counts = Counts {
        all: 0,
        own: 0,
        shared: 0,
    };
    for j in (0..n).rev() {
        counts = visit(space, marks, j, counts);
    }
    counts
}

// How many blocks of 64 assignments so many atoms have.
#[tactic(auto, unfolding(crate::specs::Code::blocks_of))]
pub fn blocks_of(atoms: u32) -> u32
    ensures { result ≡ blocks_of atoms }
{
    match atoms {
        7 => 2,
        8 => 4,
        9 => 8,
        10 => 16,
        _ => 1,
    }
}

// The assignments found for each branch: a word of those that allow it.
#[derive(Clone, Copy)]
pub struct Found {
    pub yes: u64,
    pub no: u64,
}

impl Found {
    // None yet.
    pub const NONE: Found = Found { yes: 0, no: 0 };

    // Of the assignments c those with a bit of g allow the true branch, and the others the false one.
    pub fn add(&mut self, c: u64, g: u64)
        ensures yes { self.new.yes ≡ bit_or self.old.yes (bit_and c g) }
        ensures no { self.new.no ≡ bit_or self.old.no (bit_and c (ones - g)) }
    {
        self.yes |= c & g;
        self.no |= c & !g;
    }

    // Both branches have an assignment.
    pub fn both(&self) -> bool
        ensures { result ≡ non_zero self.now.yes && non_zero self.now.no }
    {
        self.yes != 0 && self.no != 0
    }

    // The branches by the assignments found for each.
    #[tactic(auto, unfolding(crate::specs::Decision::branches_of))]
    pub fn branches(&self) -> Decision
        ensures { result ≡ branches_of (non_zero self.now.yes) (non_zero self.now.no) }
    {
        match (self.yes != 0, self.no != 0) {
            (true, true) => Decision::Both,
            (true, false) => Decision::OnlyTrue,
            (false, _) => Decision::OnlyFalse,
        }
    }
}
