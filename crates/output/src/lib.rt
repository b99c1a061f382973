// Bytes, numbers and types written from a place of the output on. What does not fit is left out, and the place after it is given all the same: so a text
// is measured by writing it into no bytes.
#![tactic(auto)]

ghost use Rattle.std.specs.Prelude.{replicate, ◌≡◌, ◌+◌, ◌^◌, ◌<◌, length, set};
ghost use Rattle.script.specs.Rows.Kinds.{kind_count};
ghost use Rattle.text.specs.Code.Output.{Put, word_of};
ghost use Rattle.text.specs.Writing.{digits, type_text};

use fields::words::word;

// One byte at place `at`.
pub fn put(out: &mut [u8], at: usize, b: u8)
    ensures { out.new ≡ set out.old at b }
{
    if at < out.len() {
        out[at] = b;
    }
}

// Bytes from place `at` on.
pub fn put_bytes(out: &mut [u8], at: usize, bytes: &[u8]) -> usize
    requires { at + length bytes.now < 2 ^ 64 }
    ensures { Put bytes.now at out.old result out.new }
{
    for (i, &b) in bytes.iter().enumerate() {
        put(out, at + i, b);
    }
    at + bytes.len()
}

// The word of this kind, written from place `at` on.
pub fn put_word(out: &mut [u8], at: usize, kind: u32) -> usize
    requires kind_lt_kind_count { kind < kind_count }
    requires kind_bound { at + length (word_of kind) < 2 ^ 64 }
    ensures { Put (word_of kind) at out.old result out.new }
{
    put_bytes(out, at, word(kind))
}

// A number in decimal: its tens first, then its last digit.
pub fn put_number(out: &mut [u8], at: usize, n: u32) -> usize
    requires { at + length (digits n) < 2 ^ 64 }
    ensures { Put (digits n) at out.old result out.new }
{
    if n < 10 {
        put(out, at, b'0' + (n as u8));
        return at + 1;
    }
    let last = put_number(out, at, n / 10);
    put(out, last, b'0' + ((n % 10) as u8));
    last + 1
}

// A byte so many times, from place `at` on.
fn put_times(out: &mut [u8], at: usize, b: u8, times: usize) -> usize
    requires { at + times < 2 ^ 64 }
    ensures { Put (replicate times b) at out.old result out.new }
{
    let next = at + times;
    let end = next.min(out.len());
    if at < end {
        out[at..end].fill(b);
        return next;
    }
    next
}

// A type by its code: a letter r for each 2, then i or b.
pub fn put_type(out: &mut [u8], at: usize, code: u32) -> usize
    requires { at + length (type_text code) < 2 ^ 64 }
    ensures { Put (type_text code) at out.old result out.new }
{
    let last = put_times(out, at, b'r', (code / 2) as usize);
    if code % 2 == 0 {
        put(out, last, b'i');
        return last + 1;
    }
    put(out, last, b'b');
    last + 1
}
