// The use count of test 5 in one walk: each node of a table is handed once to a step, which sees a state and that node. After the last node a field of the
// state says which node, other than the last, is the lowest that is not used exactly once.
#![tactic(auto)]

ghost use Rattle.std.specs.Prelude.{true, ◌≡◌, ◌-◌, ◌^◌, ◌<◌, take};
ghost use Rattle.script.specs.Code.TableTests.{Lent};
ghost use Rattle.script.specs.Flat.{nodes_in};
ghost use Rattle.script.specs.Limits.{node_limit};
ghost use Rattle.script.specs.Table.{operands};
ghost use Rattle.script.specs.Tests.Bits.{bit};
ghost use Rattle.uses.specs.Walk.{half, used_again, with_use, with_uses, first_unused, lowest_wrong, wrong_before, start, step, walk};

use script::{Node, Script};
use table::{node_at, node_operands};

// How many nodes one word has bits for.
const HALF: u32 = 64;

// How many nodes there may be.
const LIMIT: u32 = Script::NODES as u32;

// The nodes by how the nodes seen use them: a 1 for each that is unused, of the first 64 in `low` and of the others in `high`; the lowest that is used again,
// or 128; and how many nodes were seen.
#[derive(Clone, Copy)]
pub struct Uses {
    pub low: u64,
    pub high: u64,
    pub again: u32,
    pub seen: u32,
}

// What the walk knows after the nodes seen: their uses, and the lowest of them, other than the last, that is not used exactly once.
#[derive(Clone, Copy)]
pub struct State {
    pub uses: Uses,
    pub wrong: Option<u32>,
}

// Bit k of a word is 1.
fn has_bit(word: u64, k: u32) -> bool
    requires { k < half }
    ensures { result ≡ bit word k }
{
    (word >> k) % 2 == 1
}

// The word with a 0 for the 1 at bit k.
fn without_bit(word: u64, k: u32) -> u64
    requires k_lt_half { k < half }
    requires k_value { bit word k ≡ true }
    ensures { result ≡ word - 2 ^ k }
{
    word - (1u64 << k)
}

// Node o is used again.
fn used_again(u: Uses, o: u32) -> Uses
    ensures { result ≡ used_again u o }
{
    Uses {
        again: u.again.min(o),
        ..u
    }
}

// One use more, of node o.
fn with_use(u: Uses, o: u32) -> Uses
    ensures { result ≡ with_use u o }
{
    if o < HALF {
        if has_bit(u.low, o) {
            return Uses {
                low: without_bit(u.low, o),
                ..u
            };
        }
        return used_again(u, o);
    }
    if o < LIMIT {
        if has_bit(u.high, o - HALF) {
            return Uses {
                high: without_bit(u.high, o - HALF),
                ..u
            };
        }
        return used_again(u, o);
    }
    u
}

// The uses by one node more.
fn with_uses(u: Uses, n: Node) -> Uses
    ensures { result ≡ with_uses u (operands n) }
{
    let count = node_operands(n.kind);
    if count == 0 {
        return u;
    }
    let first = with_use(u, n.a);
    if count == 1 {
        return first;
    }
    let second = with_use(first, n.b);
    if count == 2 {
        return second;
    }
    with_use(second, n.c)
}

// The lowest unused node, or 128.
fn first_unused(u: Uses) -> u32
    ensures { result ≡ first_unused u }
{
    let low = u.low.trailing_zeros();
    if low < HALF {
        return low;
    }
    HALF + u.high.trailing_zeros()
}

// The lowest node that is unused or used again, or 128.
#[tactic(auto, unfolding(crate::specs::Walk::lowest_wrong))]
fn lowest_wrong(u: Uses) -> u32
    ensures { result ≡ lowest_wrong u }
{
    first_unused(u).min(u.again)
}

// That node, if it is before the last.
fn wrong_before(u: Uses, last: u32) -> Option<u32>
    ensures { result ≡ wrong_before u last }
{
    let lowest = lowest_wrong(u);
    if lowest < last {
        return Some(lowest);
    }
    None
}

// Before the first node.
pub fn start() -> State
    ensures { result ≡ start }
{
    State {
        uses: Uses {
            low: u64::MAX,
            high: u64::MAX,
            again: LIMIT,
            seen: 0,
        },
        wrong: None,
    }
}

// After one node more, which is the last so far.
pub fn step(s: State, n: Node) -> State
    requires { s.uses.seen < node_limit }
    ensures { result ≡ step s n }
{
    let before = s.uses;
    let after = with_uses(before, n);
    let last = before.seen;
    let wrong = wrong_before(after, last);
    let uses = Uses {
        seen: last + 1,
        ..after
    };
    State { uses, wrong }
}

// After the first `nodes` nodes of a table, one by one.
pub fn walk(table: &[u32], nodes: usize) -> State
    requires { Lent table.now nodes }
    ensures { result ≡ walk (take nodes (nodes_in table.now)) }
{
    let mut s = start();
    for i in 0..nodes {
        s = step(s, node_at(table, i));
    }
    s
}
