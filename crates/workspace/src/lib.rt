// The workspace of a `sym`: where its numbers stand, and what the functions on it hand to each other. What the numbers stand for, and the laws of every step
// on them, stand in `specs/`. No function.
#![tactic(auto)]

use script::{Refusal, Script};
use terms::END;

// ---- the workspace, behind the environment and the terms

// Where the next fresh symbol stands.
pub const NEXT: usize = END;

// Where the row of the condition stands.
pub const CONDITION: usize = NEXT + 1;

// Where the count of the writes stands.
pub const WRITES: usize = CONDITION + 1;

// Where the first write stands that still counts.
pub const START: usize = WRITES + 1;

// Where the count of the variables stands.
pub const DEPTH: usize = START + 1;

// Where the log begins.
pub const LOG: usize = DEPTH + 1;

// How many numbers a write has: the reference's type and place, and the value's.
pub const WRITE: usize = 4;

// Where the number of the variables stands that are there at the start of a path: these have the same types on every path.
pub const BASE: usize = LOG + WRITE * Script::NODES;

// Where the number of the note stands that is made next.
pub const TURN: usize = BASE + 1;

// Where the first note begins.
pub const NOTES: usize = TURN + 1;

// Of how many variables a note can have the types.
pub const NAMES: usize = 6;

// How many numbers a note has.
pub const NOTE: usize = 4 + 2 * NAMES;

// How many notes are kept.
pub const KEPT: usize = 8;

// Where stands what is known of the condition.
pub const KNOWN: usize = NOTES + KEPT * NOTE;

// How many numbers a workspace has.
pub const SPACE: usize = KNOWN + rows::KNOWN_SIZE;

// ---- the frames and the forks

// Where the number of the frame stands that the next value goes to, 0 if it goes to none.
pub const GOAL: usize = 0;

// Where the count of the frames stands.
pub const TOP: usize = 1;

// Where the count of the forks stands that are left.
pub const FORKED: usize = 2;

// How many numbers a frame has; the three counts stand where frame 0 would.
pub const FRAME: usize = 4;

// Where the forks begin, behind the frames.
pub const FORKS: usize = FRAME * Script::NODES;

// How many numbers a fork has.
pub const FORK: usize = 2;

// The numbers that a fork keeps are below this, those of rows below the other: so seven stand in two.
pub const SMALL: u32 = 256;

pub const MANY_ROWS: u32 = 4096;

// How many numbers frames and forks have: each fork has two frames of its own.
pub const FRAMES: usize = FORKS + FORK * (Script::NODES / 2);

// What a node waits for: the value of its first operand, of the next one, or of the body of a `let`, whose variable is bound then. Numbers and no enum:
// `frames::wait` takes any below `AWAITS`.
pub const FOR_FIRST: u32 = 0;

pub const FOR_NEXT: u32 = 1;

pub const FOR_BODY: u32 = 2;

// What a node waits for is below this.
pub const AWAITS: u32 = 4;

// ---- what the functions hand to each other

// A value on a path: its type's code, and its place.
pub type Typed = (u32, u32);

// A path's step: a value, or a refusal that ends the path.
pub type Step = Result<Typed, Refusal>;

// What a frame has: the node that waits, for what, and the type and the place of its first operand's value.
#[derive(Clone, Copy)]
pub struct Frame {
    pub node: u32,
    pub awaits: u32,
    pub x: u32,
    pub y: u32,
}

// What becomes of an `if`: a branch, or both.
#[derive(Clone, Copy)]
pub enum Branch {
    First,
    Second,
    Both,
}
