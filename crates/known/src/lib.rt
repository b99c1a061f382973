// What is known of a condition, so that it is not gone through again: the rows of its atoms, and its truths. It stands among the lent numbers from a place
// on: 1 if something is known, how many atoms, their rows, and two numbers for each block.
#![tactic(auto)]

ghost use Rattle.std.specs.Prelude.{◌≡◌, ◌+◌, ◌*◌, ◌≤◌, ◌<◌, length, get_or, set};
ghost use Rattle.terms.specs.Places.{row_limit, rows_end};
ghost use Rattle.terms.specs.Terms.{row_in};
ghost use Rattle.rows.specs.Code.{Rows, seen_after, rank, known_size, known_word, known_numbers, Sound, keep_row, Keepable, kept_rows, keep_word, kept_words, kept, GuardListed, guarded_word, guarded_words, Comparable, compared};

use rows::{CONDITION, Decision, Found, blocks_of, mark_all};
use terms::{FIRST_ATOM, ROWS, RowNumber, row_at};
use truths::{begin, evaluate, list_rows};

// Where the count of the atoms stands, from the first place on, their rows, and the truths.
const COUNT: usize = 1;

const ATOM_ROWS: usize = 2;

const TRUTHS: usize = 12;

// A word's two numbers are below this.
const HALF: u64 = 1 << 32;

// The truths under the assignments of a block.
fn known_word(space: &[u32], at: usize, block: u32) -> u64
    requires known_size_in_bounds { at + known_size ≤ length space.now }
    requires block_bound { block < 16 }
    ensures { result ≡ known_word space.now at block }
{
    let i = at + TRUTHS + 2 * (block as usize);
    (space[i] as u64) + (space[i + 1] as u64) * HALF
}

// The atoms whose rows are known get their numbers.
pub fn number_known(space: &[u32], at: usize, numbers: &mut [u8])
    requires known_size_in_bounds { at + known_size ≤ length space.now }
    requires at_value { get_or space.now at 0 ≡ 1 }
    requires sound { Sound space.now at }
    requires row_limit_in_bounds { row_limit ≤ length numbers.old }
    ensures { numbers.new ≡ known_numbers space.now at numbers.old (get_or space.now (at + 1) 0) }
{
    let count = space[at + COUNT] as usize;
    for j in 0..count {
        numbers[space[at + ATOM_ROWS + j] as usize] = j as u8;
    }
}

// Row i is kept, if it is an atom with a mark. Answers how many rows are then.
#[tactic(auto, unfolding(rows::specs::Code::seen_after, rows::specs::Code::keep_row))]
fn keep_row(space: &mut [u32], at: usize, mark: u8, i: usize, count: u32) -> u32
    requires rows_end_le_at { (rows_end ≤ at) × (at + known_size ≤ length space.old) }
    requires i_lt_row_limit { (i < row_limit) × (count < 42) }
    ensures value { result ≡ seen_after (row_in space.old i).op mark 1 count }
    ensures space_after { space.new ≡ keep_row space.old at mark i count }
{
    if mark < CONDITION || row_at(space, i).op < FIRST_ATOM {
        return count;
    }
    space[at + ATOM_ROWS + count as usize] = i as u32;
    count + 1
}

// The rows of the atoms with a mark are kept. Answers how many.
fn keep_rows(space: &mut [u32], at: usize, marks: &[u8]) -> u32
    requires { Keepable space.old at marks.now (length marks.now) }
    ensures value { result ≡ rank space.old marks.now 1 (length marks.now) }
    ensures space_after { space.new ≡ kept_rows space.old at marks.now (length marks.now) }
{
    let mut count = 0;
    for (i, mark) in marks.iter().enumerate() {
        count = keep_row(space, at, *mark, i, count);
    }
    count
}

// The truths of a block are kept.
#[tactic(auto, unfolding(rows::specs::Code::keep_word))]
fn keep_word(space: &mut [u32], at: usize, block: usize, word: u64)
    requires known_size_in_bounds { at + known_size ≤ length space.old }
    requires block_bound { block < 16 }
    ensures { space.new ≡ keep_word space.old at block word }
{
    let i = at + TRUTHS + 2 * block;
    space[i] = (word % HALF) as u32;
    space[i + 1] = (word / HALF) as u32;
}

// The truths of the first blocks are kept.
fn keep_words(space: &mut [u32], at: usize, truths: &[u64])
    requires known_size_in_bounds { at + known_size ≤ length space.old }
    requires blocks_bound { length truths.now ≤ 16 }
    ensures { space.new ≡ kept_words space.old at truths.now (length truths.now) }
{
    for (block, word) in truths.iter().enumerate() {
        keep_word(space, at, block, *word);
    }
}

// The atoms with a mark and the truths of the blocks are known then.
#[tactic(auto, unfolding(rows::specs::Code::kept))]
pub fn keep(space: &mut [u32], at: usize, marks: &[u8], truths: &[u64])
    requires keepable { Keepable space.old at marks.now (length marks.now) }
    requires blocks_bound { length truths.now ≤ 16 }
    ensures { space.new ≡ kept space.old at marks.now (length marks.now) (length truths.now) truths.now }
{
    let count = keep_rows(space, at, marks);
    keep_words(space, at, truths);
    space[at + COUNT] = count;
    space[at] = 1;
}

// The rows that the guard reaches, in order. Answers how many.
pub fn list_guard(space: &[u32], guard: usize, order: &mut [RowNumber]) -> usize
    requires rows_end_in_bounds { (rows_end ≤ length space.now) × (guard < row_limit) }
    requires row_limit_in_bounds { row_limit ≤ length order.old }
    ensures { GuardListed space.now guard order.old result order.new }
{
    let mut marks = [0u8; ROWS];
    marks[guard] = CONDITION;
    mark_all(space, guard + 1, &mut marks);
    list_rows(&marks[..guard + 1], CONDITION, order)
}

// The truths of the guard, where the condition has the truths c: 0 if that has none.
#[tactic(auto, unfolding(rows::specs::Code::guarded_words, rows::specs::Code::guarded_word))]
fn guarded_word(
    space: &[u32],
    order: &[RowNumber],
    numbers: &[u8],
    block: u32,
    words: &mut [u64],
    guard: usize,
    c: u64,
) -> u64
    requires rows { Rows space.now order.now }
    requires row_limit_in_bounds { (row_limit ≤ length numbers.now) × (row_limit ≤ length words.old) }
    requires guard_lt_row_limit { guard < row_limit }
    ensures words_after { words.new ≡ guarded_words space.now order.now (length order.now) numbers.now block words.old c }
    ensures value { result ≡ guarded_word words.new guard c }
{
    if c == 0 {
        return 0;
    }
    evaluate(space, order, numbers, block, words);
    words[guard]
}

// The branches that some assignment allows, by what is known of the condition.
pub fn compare(
    space: &[u32],
    at: usize,
    order: &[RowNumber],
    numbers: &[u8],
    guard: usize,
) -> Decision
    requires { Comparable space.now at order.now numbers.now guard }
    ensures { result ≡ compared space.now at numbers.now guard }
{
    let mut words = [0u64; ROWS];
    let mut later: [RowNumber; ROWS] = [0; ROWS];
    let more = begin(space, order, numbers, guard + 1, &mut words, &mut later);
    let mut found = Found::NONE;
    for block in 0..blocks_of(space[at + COUNT]) {
        let c = known_word(space, at, block);
        let g = guarded_word(space, &later[..more], numbers, block, &mut words, guard, c);
        found.add(c, g);
        if found.both() {
            return Decision::Both;
        }
    }
    found.branches()
}

// Nothing is known of the condition any more.
pub fn forget(space: &mut [u32], at: usize)
    requires { at < length space.old }
    ensures { space.new ≡ set space.old at 0 }
{
    space[at] = 0;
}
