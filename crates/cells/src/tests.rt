// 35 and 34: the tests of the cells and values that a run is lent.
ghost use Rattle.std.specs.Prelude.{true, ◌≡◌, ◌+◌, ◌*◌, ◌<◌, ◌≤◌, length, get_or, drop};
ghost use Rattle.script.specs.Limits.{entry_limit};
ghost use Rattle.rules.specs.Running.{bits_at, valid_by, all_valid, right_cells, right_values};

use crate::bits_at;

// At most so many cells are used before a run.
const USED: u32 = 64;

// At least so many cells are lent to it.
const LENT: usize = 192;

// The value at place i is valid: a kind that there is, 0 or 1 as a truth, below the used cells as a location.
fn valid(bytes: &[u8], i: usize, used: u32) -> bool
    requires { 5 * i + 4 < length bytes.now }
    ensures { result ≡ valid_by used (get_or (drop (5 * i) bytes.now) 0 0) (bits_at (drop (5 * i) bytes.now)) }
{
    let bits = bits_at(bytes, i);
    match bytes[5 * i] {
        0 => true,
        1 => bits <= 1,
        2 => bits < used,
        _ => false,
    }
}

// The first `count` values are valid.
fn all_valid(bytes: &[u8], count: usize, used: u32) -> bool
    requires { 5 * count ≤ length bytes.now }
    ensures { result ≡ all_valid used count bytes.now }
{
    for i in 0..count {
        if !valid(bytes, i, used) {
            return false;
        }
    }
    true
}

// Not 35: at most 64 cells are used, and at least 192 whole ones are lent.
pub fn right_cells(cells: &[u8], used: u32) -> bool
    ensures { result ≡ right_cells cells.now used }
{
    used <= USED && LENT <= cells.len() / 5
}

// Not 34: as many values as entries, whole cells, all values and used cells valid.
pub fn right_values(entries: usize, values: &[u8], cells: &[u8], used: u32) -> bool
    requires entries_le_entry_limit { entries ≤ entry_limit }
    requires used_value { right_cells cells.now used ≡ true }
    ensures { result ≡ right_values entries values.now cells.now used }
{
    if values.len() == 5 * entries {
        if cells.len() % 5 == 0 {
            if all_valid(values, entries, used) {
                return all_valid(cells, used as usize, used);
            }
        }
    }
    false
}
