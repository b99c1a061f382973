// Equality of words: true or false if the difference is a constant, else an atom, which is found again if the same difference or its negation has a row.
#![tactic(auto)]

ghost use Rattle.std.specs.Prelude.{◌≡◌, ◌≤◌, length};
ghost use Rattle.terms.specs.Search.{if_below};
ghost use Rattle.terms.specs.Terms.{Space, count_in};
ghost use Rattle.words.specs.Sums.{Two};
ghost use Rattle.words.specs.Words.{is_wanted, is_found, difference_row_of, difference_left, equal_row, equal_left, Rows, Words};

mod sums;

use sums::{Numbers, PLACES, alike, is_constant, joins, subtract};
use terms::{CONSTANT, COUNT, DIFFERENCE, Row, push, row_at};

// The difference of the rows is the wanted one or its negation.
fn is_wanted(space: &[u32], p: u32, q: u32, wanted: &Numbers) -> bool
    requires { Two space.now p q }
    ensures { result ≡ is_wanted space.now wanted.now p q }
{
    let mut numbers: Numbers = [0; PLACES];
    subtract(space, p, q, &mut numbers);
    alike(&numbers, wanted)
}

// Row i is the atom of the wanted difference.
fn is_found(space: &[u32], i: usize, wanted: &Numbers) -> bool
    requires { Rows space.now i }
    ensures { result ≡ is_found space.now wanted.now i }
{
    let row = row_at(space, i);
    joins(row, DIFFERENCE, i) && is_wanted(space, row.a, row.b, wanted)
}

// The row that is the atom of the wanted difference.
fn find_difference(space: &[u32], wanted: &Numbers) -> Option<u32>
    requires { Space space.now 1 }
    ensures { result ≡ if_below (difference_row_of space.now wanted.now) (count_in space.now) }
{
    for i in 0..space[COUNT] {
        if is_found(space, i as usize, wanted) {
            return Some(i);
        }
    }
    None
}

// The row of the atom of a difference that is no constant: found again, or made of rows p and q.
fn difference_atom(space: &mut [u32], p: u32, q: u32, wanted: &Numbers) -> u32
    requires { Space space.old 1 }
    ensures value { result ≡ difference_row_of space.old wanted.now }
    ensures space_after { space.new ≡ difference_left space.old wanted.now p q }
{
    match find_difference(space, wanted) {
        Some(i) => i,
        None => push(space, DIFFERENCE, p, q),
    }
}

// The row of the equality of words p and q.
pub fn equal_words(space: &mut [u32], p: u32, q: u32) -> u32
    requires { Words space.old p q }
    ensures value { result ≡ equal_row space.old p q }
    ensures space_after { space.new ≡ equal_left space.old p q }
{
    let mut numbers: Numbers = [0; PLACES];
    subtract(space, p, q, &mut numbers);
    if is_constant(&numbers) {
        return push(space, CONSTANT, (numbers[0] == 0) as u32, 0);
    }
    difference_atom(space, p, q, &numbers)
}
