// The difference of two words in numbers: its constant, and then the coefficients of its symbols, modulo 2^32. One pass from the upper word down: each row
// has a weight, how often it counts in the difference; a sum's weight goes to its operands, the weight of a number or a symbol to its place.
ghost use Rattle.std.specs.Prelude.{◌≡◌, ◌*◌, ◌%◌, ◌^◌, ◌<◌, ◌≤◌, length};
ghost use Rattle.words.specs.Sums.{place_count, added, joins, is_symbol, spread, gather, passed, rows_to, subtracted, constant_numbers, same_numbers, opposite_numbers, alike, Two, Room};

use terms::{NUMBER, ROWS, Row, SUM, SYMBOL, VARIABLES, row_at};

// How many numbers a difference has.
pub const PLACES: usize = 1 + VARIABLES;

// A difference: its constant, and then the coefficients of its symbols.
pub type Numbers = [u32; PLACES];

// The weight of the word that is taken away: 2^32 less 1.
const LESS: u32 = u32::MAX;

// Adds v at a place, modulo 2^32.
fn add_at(numbers: &mut [u32], at: usize, v: u32)
    requires { at < length numbers.old }
    ensures { numbers.new ≡ added numbers.old at v }
{
    numbers[at] = numbers[at].wrapping_add(v);
}

// Row i has this operator and two earlier rows as its operands.
#[tactic(auto, unfolding(crate::specs::Sums::joins))]
pub fn joins(row: Row, op: u32, i: usize) -> bool
    ensures { result ≡ joins row op i }
{
    row.op == op && (row.a as usize) < i && (row.b as usize) < i
}

// The row is a symbol of a word.
#[tactic(auto, unfolding(crate::specs::Sums::is_symbol))]
fn is_symbol(row: Row) -> bool
    ensures { result ≡ is_symbol row }
{
    row.op == SYMBOL && (row.a as usize) < VARIABLES
}

// The weight w of row i goes to its operands, if it is a sum.
#[tactic(auto, unfolding(crate::specs::Sums::spread, crate::specs::Sums::joins))]
fn spread(weights: &mut [u32], row: Row, i: usize, w: u32)
    requires { i ≤ length weights.old }
    ensures { weights.new ≡ spread weights.old row i w }
{
    if joins(row, SUM, i) {
        add_at(weights, row.a as usize, w);
        add_at(weights, row.b as usize, w);
    }
}

// The weight w of a row goes to its place, if it is a number or a symbol.
#[tactic(auto, unfolding(crate::specs::Sums::gather, crate::specs::Sums::is_symbol))]
fn gather(numbers: &mut Numbers, row: Row, w: u32)
    ensures { numbers.new ≡ gather numbers.old row w }
{
    if row.op == NUMBER {
        add_at(numbers, 0, w.wrapping_mul(row.a));
    } else if is_symbol(row) {
        add_at(numbers, row.a as usize + 1, w);
    }
}

// Passes over the rows below `top`, from the last down. A row of weight 0 changes nothing, and is not read.
fn pass(space: &[u32], top: usize, weights: &mut [u32], numbers: &mut Numbers)
    requires { Room space.now top weights.old }
    ensures { numbers.new ≡ passed space.now top weights.old numbers.old }
{
    for i in (0..top).rev() {
        let w = weights[i];
        if w != 0 {
            let row = row_at(space, i);
            spread(weights, row, i, w);
            gather(numbers, row, w);
        }
    }
}

// The number of rows up to the upper one of two.
#[tactic(auto, unfolding(crate::specs::Sums::rows_to))]
fn rows_to(p: u32, q: u32) -> usize
    ensures { result ≡ rows_to p q }
{
    p.max(q) as usize + 1
}

// Adds the numbers of row p less row q.
pub fn subtract(space: &[u32], p: u32, q: u32, numbers: &mut Numbers)
    requires { Two space.now p q }
    ensures { numbers.new ≡ subtracted space.now p q numbers.old }
{
    let mut weights = [0u32; ROWS];
    add_at(&mut weights, p as usize, 1);
    add_at(&mut weights, q as usize, LESS);
    pass(space, rows_to(p, q), &mut weights, numbers);
}

// Every symbol's coefficient is 0.
pub fn is_constant(numbers: &Numbers) -> bool
    ensures { result ≡ constant_numbers numbers.now }
{
    numbers[1..].iter().all(|n| *n == 0)
}

// One difference is the other's negation.
fn opposite(xs: &Numbers, ys: &Numbers) -> bool
    ensures { result ≡ opposite_numbers xs.now ys.now }
{
    xs.iter().zip(ys).all(|(x, y)| x.wrapping_add(*y) == 0)
}

// Two differences are one atom.
pub fn alike(xs: &Numbers, ys: &Numbers) -> bool
    ensures { result ≡ alike xs.now ys.now }
{
    xs == ys || opposite(xs, ys)
}
