// The forks of a path: what is kept where both branches of an `if` can be taken, what is set again there, and the condition on each branch. A fork has the
// frame of the `if` and the path's own numbers, seven small ones in two.
ghost use Rattle.std.specs.Prelude.{◌≡◌, ◌+◌, ◌*◌, ◌-◌, ◌≤◌, ◌<◌, eqb, length};
ghost use Rattle.script.specs.Tests.{pick};
ghost use Rattle.terms.specs.Terms.{Space, of_conjunction, of_exclusion};
ghost use Rattle.workspace.specs.Forks.{forked_in, Forkable, Forks, Rewound, RestoredOne};
ghost use Rattle.workspace.specs.Paths.{assumed};
ghost use Rattle.workspace.specs.Places.{frames_size, space_size, fork_limit, frame_width};

use terms::{CONJUNCTION, COUNT, EXCLUSION, push};
use workspace::{
    AWAITS, CONDITION, DEPTH, FOR_BODY, FORK, FORKED, FORKS, FRAME, GOAL, KNOWN, MANY_ROWS, NEXT,
    SMALL, START, TOP, WRITES,
};

// Keeps where the path is.
pub fn fork(space: &[u32], frames: &mut [u32])
    requires { Forkable space.now frames.old }
    ensures { Forks space.now frames.old frames.new }
{
    let count = frames[FORKED];
    let at = FORKS + FORK * (count as usize);
    let first = space[NEXT] + SMALL * (space[COUNT] + MANY_ROWS * space[CONDITION]);
    let later = space[WRITES] + SMALL * (space[START] + SMALL * space[DEPTH]);
    let second = frames[GOAL] + SMALL * later;
    frames[at] = first;
    frames[at + 1] = second;
    frames[FORKED] = count + 1;
}

// The numbers of the path are those of its last fork, which is left no more. Nothing is known of its condition.
pub fn rewind(space: &mut [u32], frames: &mut [u32])
    requires space_size_in_bounds { space_size ≤ length space.old }
    requires frames_size_in_bounds { frames_size ≤ length frames.old }
    requires bound { 1 ≤ forked_in frames.old }
    requires frames_bound { forked_in frames.old ≤ fork_limit }
    ensures { Rewound (forked_in frames.old - 1) space.old frames.old space.new frames.new }
{
    let count = frames[FORKED] - 1;
    let at = FORKS + FORK * (count as usize);
    let first = frames[at];
    let second = frames[at + 1];
    space[COUNT] = first / SMALL % MANY_ROWS;
    space[NEXT] = first % SMALL;
    space[CONDITION] = first / SMALL / MANY_ROWS;
    space[WRITES] = second / SMALL % SMALL;
    space[START] = second / SMALL / SMALL % SMALL;
    space[DEPTH] = second / SMALL / SMALL / SMALL;
    space[KNOWN] = 0;
    frames[GOAL] = second % SMALL;
    frames[TOP] = second % SMALL;
    frames[FORKED] = count;
}

// The variable before place d is the one that frame f has, if that waits for the body of a `let`. Answers how many variables are left.
pub fn restore_one(space: &mut [u32], frames: &[u32], f: usize, d: usize) -> usize
    requires f_in_bounds { frame_width * f + 3 < length frames.now }
    requires d_in_bounds { 2 * d ≤ length space.old }
    requires le_d { 1 ≤ d }
    ensures { RestoredOne frames.now f d space.old result space.new }
{
    if frames[FRAME * f + 1] % AWAITS == FOR_BODY {
        space[2 * (d - 1)] = frames[FRAME * f + 2];
        space[2 * (d - 1) + 1] = frames[FRAME * f + 3];
        return d - 1;
    }
    d
}

// Whether no fork is left.
pub fn none_left(frames: &[u32]) -> bool
    requires { frames_size ≤ length frames.now }
    ensures { result ≡ eqb (forked_in frames.now) 0 }
{
    frames[FORKED] == 0
}

// The condition becomes a row of it and the guard: where the guard holds their conjunction, where it does not the condition without the guard.
pub fn assume(space: &mut [u32], guard: u32, holds: bool)
    requires space { Space space.old 1 }
    requires space_size_in_bounds { space_size ≤ length space.old }
    ensures { space.new ≡ assumed space.old (pick holds of_conjunction of_exclusion) guard }
{
    let condition = space[CONDITION];
    let op = if holds { CONJUNCTION } else { EXCLUSION };
    let row = push(space, op, condition, guard);
    space[CONDITION] = row;
}
