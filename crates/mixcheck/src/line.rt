// The line that the program prints for a text.
ghost use Rattle.std.specs.Prelude.{◌∷◌, ◌+◌, ◌^◌, ◌≤◌, ◌<◌, length, Err, Ok};
ghost use Rattle.text.specs.Bytes.{tab};
ghost use Rattle.text.specs.Code.Output.{Put};
ghost use Rattle.host.specs.Texts.{check_text};
ghost use Rattle.mixcheck.specs.Line.{place_text, line_of, line_limit, PutLine};

use output::{put, put_bytes, put_number, put_type};
use script::Refusal;

// No line is longer.
pub const MOST: usize = 26;

// `accepted` and the type.
#[tactic(auto, using(crate::specs::Line::Laws::lengths))]
fn put_accepted(out: &mut [u8], code: u32) -> usize
    ensures { Put (line_of (Ok code)) 0 out.old result out.new }
{
    let after_word = put_bytes(out, 0, b"accepted\t");
    let after_type = put_type(out, after_word, code);
    put(out, after_type, b'\n');
    after_type + 1
}

// A place or `-`, after a tab.
fn put_place(out: &mut [u8], at: usize, place: Option<u32>) -> usize
    requires { at + length (tab ∷ place_text place) < 2 ^ 64 }
    ensures { Put (tab ∷ place_text place) at out.old result out.new }
{
    put(out, at, b'\t');
    let next = at + 1;
    match place {
        None => {
            put(out, next, b'-');
            next + 1
        }
        Some(i) => put_number(out, next, i),
    }
}

// `refused`, the number and the place.
#[tactic(auto, using(crate::specs::Line::Laws::lengths))]
fn put_refused(out: &mut [u8], why: Refusal) -> usize
    ensures { Put (line_of (Err why)) 0 out.old result out.new }
{
    let after_word = put_bytes(out, 0, b"refused\t");
    let after_number = put_number(out, after_word, why.number());
    let after_place = put_place(out, after_number, why.place());
    put(out, after_place, b'\n');
    after_place + 1
}

// Checks a text and puts its line into `out`; gives the line's length.
pub fn put_line(text: &[u8], out: &mut [u8]) -> usize
    requires { line_limit ≤ length out.old }
    ensures { PutLine (line_of (check_text text.now)) out.old result out.new }
{
    match host::check_text(text) {
        Ok(code) => put_accepted(out, code),
        Err(why) => put_refused(out, why),
    }
}
