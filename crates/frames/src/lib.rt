// What waits on a path while an operand of it is executed. A frame is four numbers: the node that waits, four times the frame that its own value goes to
// and what it waits for, and the type and the place of its first operand's value. Frames are only added, so a path can come back to any of them; there is
// no frame 0. `forks` has what is kept where both branches of an `if` can be taken.
#![tactic(auto)]

ghost use Rattle.std.specs.Prelude.{◌≡◌, ◌*◌, ◌/◌, ◌≤◌, ◌<◌, length, set};
ghost use Rattle.script.specs.Limits.{node_limit};
ghost use Rattle.workspace.specs.Frames.{frame_in, Waitable, Waits, frame_at, waits_for, Descends, Descendable, await_limit, goes_to};
ghost use Rattle.workspace.specs.Places.{frames_end, goal_at};

pub mod forks;

use script::table::{LEAVES, TYPED};
use table::node_at;
use workspace::{AWAITS, FOR_FIRST, FRAME, Frame, GOAL, TOP};

// Node n waits for an operand, where the first one gave x and y, if it has given yet.
pub fn wait(frames: &mut [u32], n: u32, awaits: u32, x: u32, y: u32)
    requires waitable { Waitable frames.old }
    requires awaits_lt_await_limit { awaits < await_limit }
    ensures { Waits n awaits x y frames.old frames.new }
{
    let top = frames[TOP] + 1;
    let up = AWAITS * frames[GOAL] + awaits;
    let at = FRAME * (top as usize);
    frames[at] = n;
    frames[at + 1] = up;
    frames[at + 2] = x;
    frames[at + 3] = y;
    frames[TOP] = top;
    frames[GOAL] = top;
}

// The frame that a value goes to; the next one goes to where this one's does.
pub fn leave(frames: &mut [u32]) -> Frame
    requires frames_end_in_bounds { frames_end ≤ length frames.old }
    requires frames_bound { frame_in frames.old < node_limit }
    ensures value { result ≡ frame_at frames.old (frame_in frames.old) }
    ensures frames_after { frames.new ≡ set frames.old goal_at (goes_to frames.old (frame_in frames.old)) }
{
    let at = FRAME * (frames[GOAL] as usize);
    let up = frames[at + 1];
    let frame = Frame {
        node: frames[at],
        awaits: up % AWAITS,
        x: frames[at + 2],
        y: frames[at + 3],
    };
    frames[GOAL] = up / AWAITS;
    frame
}

// Whether a node waits for its first operand: one that has such, and is no typed block.
fn waits(kind: u32) -> bool
    ensures { result ≡ waits_for kind }
{
    LEAVES <= kind && kind != TYPED
}

// Node m, its first operand, that one's first and so on wait, down to one that need not. Answers that one.
pub fn descend(table: &[u32], frames: &mut [u32], m: u32) -> u32
    requires { Descendable table.now frames.old m }
    ensures { Descends table.now frames.old m result frames.new }
{
    let mut n = m;
    let mut node = node_at(table, n as usize);
    while waits(node.kind) {
        wait(frames, n, FOR_FIRST, 0, 0);
        n = node.a;
        node = node_at(table, n as usize);
    }
    n
}
