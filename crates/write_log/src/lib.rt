// The log of writes: consistency, what `get` finds, and a write.
#![tactic(auto)]

ghost use Rattle.std.specs.Prelude.{◌≡◌, suc, ◌-◌, ◌<◌, ◌≤◌, length};
ghost use Rattle.script.specs.Limits.{node_limit};
ghost use Rattle.workspace.specs.Log.{right_on, mends_on, mended_on, settled_on, written, emptied, consistent_in, lookup_in};
ghost use Rattle.workspace.specs.Places.{space_size};
ghost use Rattle.workspace.specs.State.{writes_in};

use terms::references::{apart, symbol_of};
use workspace::{LOG, START, Typed, WRITE, WRITES};

// Write i has the type of its cell.
fn is_right(space: &[u32], i: usize) -> bool
    requires i_lt_node_limit { i < node_limit }
    requires space_size_in_bounds { space_size ≤ length space.now }
    ensures { result ≡ right_on space.now i }
{
    let t = space[LOG + WRITE * i];
    let u = space[LOG + WRITE * i + 2];
    2 <= t && t - 2 == u
}

// Write j has the type of its cell and is through this symbol.
fn mends(space: &[u32], j: usize, symbol: u32) -> bool
    requires j_lt_node_limit { j < node_limit }
    requires space_size_in_bounds { space_size ≤ length space.now }
    ensures { result ≡ mends_on space.now symbol j }
{
    is_right(space, j) && symbol_of(space[LOG + WRITE * j + 1]) == symbol
}

// A write of the right type through this symbol comes after write i.
fn mended(space: &[u32], i: usize, symbol: u32) -> bool
    requires i_bound { i < writes_in space.now }
    requires space_bound { writes_in space.now ≤ node_limit }
    requires space_size_in_bounds { space_size ≤ length space.now }
    ensures { result ≡ mended_on space.now symbol (suc i) (writes_in space.now - suc i) }
{
    let count = space[WRITES] as usize;
    for j in i + 1..count {
        if mends(space, j, symbol) {
            return true;
        }
    }
    false
}

// Write i has the type of its cell, or a later one through its symbol has.
fn settled(space: &[u32], i: usize) -> bool
    requires i_bound { i < writes_in space.now }
    requires space_bound { writes_in space.now ≤ node_limit }
    requires space_size_in_bounds { space_size ≤ length space.now }
    ensures { result ≡ settled_on space.now i (writes_in space.now - suc i) }
{
    is_right(space, i) || mended(space, i, symbol_of(space[LOG + WRITE * i + 1]))
}

// Each write of a wrong type, from the first that counts on, is followed by one of the right type through the same symbol.
pub fn consistent(space: &[u32]) -> bool
    requires space_bound { writes_in space.now ≤ node_limit }
    requires space_size_in_bounds { space_size ≤ length space.now }
    ensures { result ≡ consistent_in space.now }
{
    let first = space[START] as usize;
    let count = space[WRITES] as usize;
    for i in (first..count).rev() {
        if !settled(space, i) {
            return false;
        }
    }
    true
}

// What `get` finds through the reference at this place, seen from the newest write, among those that count.
pub fn lookup(space: &[u32], place: u32) -> Option<Typed>
    requires space_bound { writes_in space.now ≤ node_limit }
    requires space_size_in_bounds { space_size ≤ length space.now }
    ensures { result ≡ lookup_in space.now place }
{
    let first = space[START] as usize;
    let count = space[WRITES] as usize;
    for i in (first..count).rev() {
        let through = space[LOG + WRITE * i + 1];
        if !apart(through, place) {
            if symbol_of(through) == symbol_of(place) {
                return Some((space[LOG + WRITE * i + 2], space[LOG + WRITE * i + 3]));
            }
            return None;
        }
    }
    None
}

// A write of a value through a reference.
pub fn write(space: &mut [u32], through: Typed, value: Typed)
    requires space_bound { writes_in space.old < node_limit }
    requires space_size_in_bounds { space_size ≤ length space.old }
    ensures { space.new ≡ written space.old through.0 through.1 value.0 value.1 }
{
    let count = space[WRITES];
    let at = LOG + WRITE * (count as usize);
    space[at] = through.0;
    space[at + 1] = through.1;
    space[at + 2] = value.0;
    space[at + 3] = value.1;
    space[WRITES] = count + 1;
}

// No write counts any more, after a typed block.
pub fn forget(space: &mut [u32])
    requires { space_size ≤ length space.old }
    ensures { space.new ≡ emptied space.old }
{
    space[START] = space[WRITES];
}
