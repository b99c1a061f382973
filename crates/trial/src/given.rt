// What a stored trial gives after its header: lines of bytes.
ghost use Rattle.std.specs.Prelude.{◌≡◌};
ghost use Rattle.trial.specs.Given.{byte_at, line, bytes_line};

use crate::number_until;

// A byte of a line, whether it is the line's last, and where the next byte starts, or after the last the next line.
#[derive(Clone, Copy)]
pub struct Byte {
    pub value: u8,
    pub last: bool,
    pub next: usize,
}

// The decimal byte at `at`, with a blank or an LF after it.
#[tactic(auto, unfolding(crate::specs::Given::byte_at))]
fn byte_at(input: &[u8], at: usize) -> Option<Byte>
    ensures { result ≡ byte_at input.now at }
{
    let (value, last, next) = match number_until(input, at, b' ') {
        Some((value, next)) => (value, false, next),
        None => {
            let (value, next) = number_until(input, at, b'\n')?;
            (value, true, next)
        }
    };
    let value = u8::try_from(value).ok()?;
    Some(Byte { value, last, next })
}

// Reads the line of decimal bytes at `at`, parted by blanks or none at all, into `out`: how many they are, and where the next line starts.
// If it is not of the form or has more bytes than `out`, the bytes before that place are in `out`.
#[tactic(auto, using(crate::specs::Given::Laws::line_steps))]
pub fn bytes_line(input: &[u8], at: usize, out: &mut [u8]) -> Option<(usize, usize)>
    ensures { line result out.new ≡ bytes_line input.now at out.old }
{
    if *input.get(at)? == b'\n' {
        return Some((0, at + 1));
    }
    let mut i = at;
    for n in 0..out.len() {
        let byte = byte_at(input, i)?;
        out[n] = byte.value;
        i = byte.next;
        if byte.last {
            return Some((n + 1, i));
        }
    }
    None
}
