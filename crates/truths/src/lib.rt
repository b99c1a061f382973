// The rows that a decision looks at, in order, with the numbers of the atoms among them; and their truths under 64 assignments at a time, one bit each.
#![tactic(auto)]

ghost use Rattle.std.specs.Prelude.{◌≡◌, ◌+◌, ◌≤◌, ◌<◌, length, slice_index_or, take};
ghost use Rattle.terms.specs.Places.{row_limit, rows_end};
ghost use Rattle.rows.specs.Code.{Listable, listed_row, count_after, Lists, Rows, number_row, seen_at, numbers_to, is_numbered, numbered_to, spread_of, pattern_of, row_word, evaluate_row, evaluated_to, change_of, change_row, changed_to, changes_of};

use rows::{ATOMS, ONES};
use terms::{
    CONJUNCTION, CONSTANT, EQUALITY, EXCLUSION, FIRST_ATOM, NEGATION, ROWS, Row, RowNumber, row_at,
};

// The atoms with lower numbers have the same truths in every block.
const STEADY: u8 = 6;

// The rows that have at least the mark. Answers how many.
pub fn list_rows(marks: &[u8], least: u8, order: &mut [RowNumber]) -> usize
    requires { Listable marks.now order.old }
    ensures { Lists marks.now (length marks.now) least order.old result order.new }
{
    let mut count = 0;
    for (i, mark) in marks.iter().enumerate() {
        if least <= *mark {
            order[count] = i as RowNumber;
            count += 1;
        }
    }
    count
}

// Row i gets the next number, if it is an atom. Answers the number after.
#[tactic(auto, unfolding(rows::specs::Code::seen_at, rows::specs::Code::number_row))]
fn number_row(space: &[u32], numbers: &mut [u8], i: usize, seen: u8) -> u8
    requires i_lt_row_limit { (i < row_limit) × (rows_end ≤ length space.now) }
    requires i_in_bounds { (i < length numbers.old) × (seen < row_limit) }
    ensures value { result ≡ seen_at space.now i seen }
    ensures numbers_after { numbers.new ≡ number_row space.now numbers.old i seen }
{
    if row_at(space, i).op < FIRST_ATOM {
        return seen;
    }
    numbers[i] = seen;
    seen + 1
}

// The atoms among the rows get numbers from 0 on.
pub fn number_atoms(space: &[u32], order: &[RowNumber], numbers: &mut [u8])
    requires rows { Rows space.now order.now }
    requires row_limit_in_bounds { row_limit ≤ length numbers.old }
    ensures { numbers.new ≡ numbers_to space.now order.now numbers.old (length order.now) }
{
    let mut seen = 0;
    for row in order {
        seen = number_row(space, numbers, *row as usize, seen);
    }
}

// Row i is no atom, or has a number.
#[tactic(auto, unfolding(rows::specs::Code::is_numbered))]
fn is_numbered(space: &[u32], numbers: &[u8], i: usize) -> bool
    requires i_lt_row_limit { (i < row_limit) × (rows_end ≤ length space.now) }
    requires i_in_bounds { i < length numbers.now }
    ensures { result ≡ is_numbered space.now numbers.now i }
{
    row_at(space, i).op < FIRST_ATOM || (numbers[i] as u32) < ATOMS
}

// Every atom among the rows has a number.
pub fn all_numbered(space: &[u32], order: &[RowNumber], numbers: &[u8]) -> bool
    requires rows { Rows space.now order.now }
    requires row_limit_in_bounds { row_limit ≤ length numbers.now }
    ensures { result ≡ numbered_to space.now order.now numbers.now (length order.now) }
{
    for row in order {
        if !is_numbered(space, numbers, *row as usize) {
            return false;
        }
    }
    true
}

// A word of which each bit is b, where b is 0 or 1.
#[tactic(auto, unfolding(rows::specs::Code::spread_of))]
fn spread(b: u32) -> u64
    ensures { result ≡ spread_of b }
{
    if b == 0 {
        return 0;
    }
    ONES
}

// The truths of atom m under the assignments 64 * block, 64 * block + 1, ..: bit m of each.
#[tactic(auto, unfolding(rows::specs::Code::pattern_of, rows::specs::Code::spread_of))]
fn pattern(m: u32, block: u32) -> u64
    ensures { result ≡ pattern_of m block }
{
    match m {
        0 => 0xAAAA_AAAA_AAAA_AAAA,
        1 => 0xCCCC_CCCC_CCCC_CCCC,
        2 => 0xF0F0_F0F0_F0F0_F0F0,
        3 => 0xFF00_FF00_FF00_FF00,
        4 => 0xFFFF_0000_FFFF_0000,
        5 => 0xFFFF_FFFF_0000_0000,
        6 => spread(block % 2),
        7 => spread(block / 2 % 2),
        8 => spread(block / 4 % 2),
        _ => spread(block / 8 % 2),
    }
}

// What an operand of row i has, among what the rows before have.
fn operand<T: Copy>(values: &[T], a: u32, i: usize, none: T) -> T
    requires { i ≤ length values.now }
    ensures { result ≡ slice_index_or (take i values.now) a none }
{
    let k = a as usize;
    if k < i {
        return values[k];
    }
    none
}

// The truths of a row whose operands have the truths x and y; m is its number, if it is an atom.
#[tactic(auto, unfolding(rows::specs::Code::row_word))]
fn row_word(row: Row, x: u64, y: u64, m: u32, block: u32) -> u64
    ensures { result ≡ row_word row x y m block }
{
    if FIRST_ATOM <= row.op {
        return pattern(m, block);
    }
    match row.op {
        EXCLUSION => x & !y,
        EQUALITY => !(x ^ y),
        CONJUNCTION => x & y,
        NEGATION => !x,
        CONSTANT => spread(row.a),
        _ => 0,
    }
}

// The truths of row i, by the words of the rows before.
#[tactic(auto, unfolding(rows::specs::Code::evaluate_row))]
fn evaluate_row(space: &[u32], numbers: &[u8], block: u32, words: &mut [u64], i: usize)
    requires i_lt_row_limit { (i < row_limit) × (rows_end ≤ length space.now) }
    requires i_in_bounds { (i < length numbers.now) × (i < length words.old) }
    ensures { words.new ≡ evaluate_row space.now numbers.now block words.old i }
{
    let row = row_at(space, i);
    words[i] = row_word(
        row,
        operand(words, row.a, i, 0),
        operand(words, row.b, i, 0),
        numbers[i] as u32,
        block,
    );
}

// The truths of the rows, under the assignments of one block.
pub fn evaluate(space: &[u32], order: &[RowNumber], numbers: &[u8], block: u32, words: &mut [u64])
    requires rows { Rows space.now order.now }
    requires row_limit_in_bounds { (row_limit ≤ length numbers.now) × (row_limit ≤ length words.old) }
    ensures { words.new ≡ evaluated_to space.now order.now numbers.now block words.old (length order.now) }
{
    for row in order {
        evaluate_row(space, numbers, block, words, *row as usize);
    }
}

// Whether the truths of a row may differ from block to block, where x and y say so of its operands: 0 if they do not. m is its number, if it is an atom.
#[tactic(auto, unfolding(rows::specs::Code::change_of))]
fn change_of(row: Row, m: u8, x: u8, y: u8) -> u8
    ensures { result ≡ change_of row m x y }
{
    if row.op < FIRST_ATOM {
        return x | y;
    }
    (STEADY <= m) as u8
}

// Whether the truths of row i may differ from block to block.
#[tactic(auto, unfolding(rows::specs::Code::change_row))]
fn change_row(space: &[u32], numbers: &[u8], changes: &mut [u8], i: usize)
    requires i_lt_row_limit { (i < row_limit) × (rows_end ≤ length space.now) }
    requires i_in_bounds { (i < length numbers.now) × (i < length changes.old) }
    ensures { changes.new ≡ change_row space.now numbers.now changes.old i }
{
    let row = row_at(space, i);
    changes[i] = change_of(
        row,
        numbers[i],
        operand(changes, row.a, i, 0),
        operand(changes, row.b, i, 0),
    );
}

// Whether the truths of each row may.
fn mark_changes(space: &[u32], order: &[RowNumber], numbers: &[u8], changes: &mut [u8])
    requires rows { Rows space.now order.now }
    requires row_limit_in_bounds { (row_limit ≤ length numbers.now) × (row_limit ≤ length changes.old) }
    ensures { changes.new ≡ changed_to space.now order.now numbers.now changes.old (length order.now) }
{
    for row in order {
        change_row(space, numbers, changes, *row as usize);
    }
}

// The truths of the rows under the first block's assignments; and those of the rows below n whose truths may differ in another. Answers how many.
pub fn begin(
    space: &[u32],
    order: &[RowNumber],
    numbers: &[u8],
    n: usize,
    words: &mut [u64],
    later: &mut [RowNumber],
) -> usize
    requires rows { Rows space.now order.now }
    requires row_limit_in_bounds { (row_limit ≤ length numbers.now) × (row_limit ≤ length words.old) }
    requires n_le_row_limit { (n ≤ row_limit) × (n ≤ length later.old) }
    ensures words_after { words.new ≡ evaluated_to space.now order.now numbers.now 0 words.old (length order.now) }
    ensures lists { Lists (changes_of space.now order.now numbers.now (length order.now)) n 1 later.old result later.new }
{
    evaluate(space, order, numbers, 0, words);
    let mut changes = [0u8; ROWS];
    mark_changes(space, order, numbers, &mut changes);
    list_rows(&changes[..n], 1, later)
}
