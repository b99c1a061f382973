// A line of a text: an entry line or a node line, and where the next line starts.
ghost use Rattle.std.specs.Prelude.{◌≡◌, true, ◌≤◌, ◌<◌, length, drop};
ghost use Rattle.script.specs.Rows.{row_of};
ghost use Rattle.script.specs.Rows.Kinds.{kind_count};
ghost use Rattle.text.specs.Code.Scan.{field_ends, largest_by, operand_at, entry_after, node_after, line_at};

use fields::words::{kind_of, same};
use fields::{LF, TAB, byte_is, field, number, type_code};
use script::table::Takes;
use script::{Node, Script};
use table::{kind_takes, operand_count};
use text::Scanned;

// The operand after a tab, at most `limit`; 0 without looking where none is wanted.
fn operand_at(text: &[u8], at: usize, limit: u32, wanted: bool) -> Option<(u32, usize)>
    requires { at ≤ length text.now }
    ensures { result ≡ operand_at wanted limit at (drop at text.now) }
{
    if !wanted {
        return Some((0, at));
    }
    if !byte_is(text, at, TAB) {
        return None;
    }
    let from = at + 1;
    let f = field(text, from);
    let n = number(f, limit)?;
    Some((n, from + f.len()))
}

// The largest number that an operand of this kind may be.
fn largest(kind: u32) -> u32
    ensures { result ≡ largest_by (row_of kind) }
{
    match kind_takes(kind) {
        Takes::Number(limit) => limit,
        Takes::Nodes => (Script::NODES - 1) as u32,
    }
}

// The rest of a node line after its word.
fn node_line(text: &[u8], at: usize, kind: u32) -> Option<(Scanned, usize)>
    requires at_in_bounds { at ≤ length text.now }
    requires text_value { field_ends (drop at text.now) ≡ true }
    requires kind_lt_kind_count { kind < kind_count }
    ensures { result ≡ node_after kind at (drop at text.now) }
{
    let count = operand_count(kind);
    let limit = largest(kind);
    let (a, after_a) = operand_at(text, at, limit, 0 < count)?;
    let (b, after_b) = operand_at(text, after_a, limit, 1 < count)?;
    let (c, after_c) = operand_at(text, after_b, limit, 2 < count)?;
    if !byte_is(text, after_c, LF) {
        return None;
    }
    Some((Scanned::Node(Node { kind, a, b, c }), after_c + 1))
}

// The rest of an entry line after its word.
fn entry_line(text: &[u8], at: usize) -> Option<(Scanned, usize)>
    requires at_in_bounds { at ≤ length text.now }
    requires text_value { field_ends (drop at text.now) ≡ true }
    ensures { result ≡ entry_after at (drop at text.now) }
{
    if !byte_is(text, at, TAB) {
        return None;
    }
    let from = at + 1;
    let f = field(text, from);
    let end = from + f.len();
    if !byte_is(text, end, LF) {
        return None;
    }
    let t = type_code(f)?;
    Some((Scanned::Entry(t), end + 1))
}

// The line that starts at `at`.
pub fn line_at(text: &[u8], at: usize) -> Option<(Scanned, usize)>
    requires { at ≤ length text.now }
    ensures { result ≡ line_at at (drop at text.now) }
{
    let w = field(text, at);
    let end = at + w.len();
    if same(b"entry", w) {
        return entry_line(text, end);
    }
    let kind = kind_of(w)?;
    node_line(text, end, kind)
}
