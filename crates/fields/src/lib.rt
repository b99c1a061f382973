// The fields of a text and what they say: the tab splitter, numbers and types.
#![tactic(auto)]

ghost use Rattle.std.specs.Prelude.{◌≡◌, ◌+◌, ◌≤◌, length, drop, []};
ghost use Rattle.script.specs.Limits.{type_limit};
ghost use Rattle.text.specs.Fields.{decimal_up_to, type_of, type_up_to, last_letter};
ghost use Rattle.text.specs.Code.Scan.{ends_field, field_in, starts_with, number_after, said_by};

pub mod words;

use script::Script;

pub const TAB: u8 = 9;

pub const LF: u8 = 10;

// Whether a field ends at this byte.
fn ends_field(c: u8) -> bool
    ensures { result ≡ ends_field c }
{
    if c == TAB {
        return true;
    }
    c == LF
}

// Where the field that starts at `from` ends: at the next tab, the line's end or the text's.
fn field_end(text: &[u8], from: usize) -> usize
    requires { from ≤ length text.now }
    ensures { result ≡ from + length (field_in (drop from text.now)) }
{
    for e in from..text.len() {
        if ends_field(text[e]) {
            return e;
        }
    }
    text.len()
}

// The field that starts at `from`, as that part of the text.
pub fn field(text: &[u8], from: usize) -> &[u8]
    requires { from ≤ length text.now }
    ensures { result.now ≡ field_in (drop from text.now) }
{
    let e = field_end(text, from);
    &text[from..e]
}

// Whether the text has this byte at this place.
pub fn byte_is(text: &[u8], at: usize, b: u8) -> bool
    ensures { result ≡ starts_with b (drop at text.now) }
{
    text.get(at) == Some(&b)
}

// The number that the digits of a field make, at most `limit`.
fn digits(f: &[u8], limit: u32) -> Option<u32>
    ensures { result ≡ said_by (number_after limit 0 f.now) }
{
    let mut n: u64 = 0;
    for &c in f {
        if c < b'0' {
            return None;
        }
        if b'9' < c {
            return None;
        }
        n = 10 * n + ((c - b'0') as u64);
        if (limit as u64) < n {
            return None;
        }
    }
    Some(n as u32)
}

// The number that a field says: decimal without leading zeros, at most `limit`.
pub fn number(f: &[u8], limit: u32) -> Option<u32>
    ensures { result ≡ said_by (decimal_up_to limit f.now) }
{
    if f.len() == 0 {
        return None;
    }
    if f.len() == 1 {
        return digits(f, limit);
    }
    if f[0] == b'0' {
        return None;
    }
    digits(f, limit)
}

// The type's code that the last letter makes after the letters r.
fn last_letter(t: u32, c: u8) -> Option<u32>
    requires { t ≤ 30 }
    ensures { result ≡ said_by (type_up_to type_limit (last_letter t c [])) }
{
    if c == b'i' {
        return Some(t);
    }
    if c == b'b' {
        return Some(t + 1);
    }
    None
}

// The code of the type that a field says: 0 to 15 letters r, then i or b.
pub fn type_code(f: &[u8]) -> Option<u32>
    ensures { result ≡ said_by (type_of f.now) }
{
    for (i, &c) in f.iter().enumerate() {
        if c != b'r' {
            if i + 1 < f.len() {
                return None;
            }
            return last_letter(2 * i as u32, c);
        }
        if Script::REFERENCES as usize <= i {
            return None;
        }
    }
    None
}
