// Going back to a fork of a path: its numbers are set again, the variables are read back from the frames, and the false branch is next.
ghost use Rattle.checker.specs.Code.Going.{Restorable, Restores, Resumable, Resumes};

use frames::forks::{assume, restore_one, rewind};
use table::node_at;
use workspace::{AWAITS, BASE, DEPTH, FRAME, GOAL};

// The variables are those that the frames have.
fn restore(space: &mut [u32], frames: &[u32])
    requires { Restorable space.old frames.now }
    ensures { Restores space.old frames.now space.new }
{
    let mut f = frames[GOAL] as usize;
    let mut d = space[DEPTH] as usize;
    while (space[BASE] as usize) < d {
        d = restore_one(space, frames, f, d);
        f = (frames[FRAME * f + 1] / AWAITS) as usize;
    }
}

// Goes back to the last fork: its false branch is next.
pub fn resume(table: &[u32], space: &mut [u32], frames: &mut [u32]) -> u32
    requires { Resumable table.now space.old frames.old }
    ensures { Resumes table.now space.old frames.old result space.new frames.new }
{
    rewind(space, frames);
    restore(space, frames);
    let at = FRAME * (frames[GOAL] as usize);
    assume(space, frames[at + 3], false);
    node_at(table, frames[at] as usize).c
}
