// Tries the runner on stored runs, and prints a line for each.
//
// A run is four parts of the input, made to be read and edited:
// - a line `LENT<tab>USED<tab>NAME`: LENT bytes are lent as cells, the first USED cells are used, and the name tells what is tried;
// - a line of the bytes of the entry values, decimal and parted by blanks, or nothing;
// - a line of the bytes with which the lent cells begin, likewise; the lent bytes after them are 165;
// - the text of the script, up to an empty line.
// At most 1024 bytes are lent, and at most 128 bytes of values given. A malformed run ends the trial.
//
// Its line has fields parted by tabs: the name, then `value`, kind, bits and used count, or `error`, node and used count; then the used cells
// after the run, `KIND:BITS` parted by blanks, `-` if there is none, or `?` if the used count is more than the cells lent; then `kept` if each lent byte
// after the used cells is as it was before the run, else `touched`.
// After a refusal: the name, `refused`, number, place or `-`, and `kept` if each lent byte is as it was; `unread` if the text was refused, and nothing run.
#![tactic(auto)]

ghost use Rattle.std.specs.Prelude.{◌≡◌, IfOk, OnErr};
ghost use Rattle.runs.specs.Given.{left, given_at};

mod outcome;

use outcome::try_text;
use std::io;
use trial::given::bytes_line;
use trial::{Header, header_at, name_end, read_full, say, text_end, try_all};

// What lent bytes hold that the input does not give.
const BLANK: u8 = 165;

// Tries a run from the line of its values on. The line of its cells goes into `before` and `cells` alike: the run changes only `cells`.
// Answers where the next run starts; none after a malformed one. A failure to print changes nothing of what the lent bytes then hold.
#[tactic(auto, using(trial::specs::Given::Laws::found))]
fn try_given(
    rt: &impl Print,
    input: &[u8],
    at: usize,
    values: &mut [u8],
    before: &mut [u8],
    cells: &mut [u8],
    used: u32,
) -> io::Result<Option<usize>>
    ensures ok { IfOk result (λ next. left next values.new before.new cells.new ≡ given_at input.now used at values.old before.old cells.old) }
    ensures err { OnErr result (left (given_at input.now used at values.old before.old cells.old).next values.new before.new cells.new ≡ given_at input.now used at values.old before.old cells.old) }
{
    let Some((count, next)) = bytes_line(input, at, values) else {
        return Ok(None);
    };
    let Some((_, from)) = bytes_line(input, next, before) else {
        return Ok(None);
    };
    bytes_line(input, next, cells);
    let Some(end) = text_end(input, from) else {
        return Ok(None);
    };
    let text = &input[from..end];
    try_text(rt, text, &values[..count], before, cells, used)?;
    print!(rt; "\n")?;
    Ok(Some(end + 1))
}

// Tries the run at `at`, and answers where the next one starts; none after a malformed one.
#[tactic(auto, using(trial::specs::Given::Laws::found))]
fn try_run(rt: &impl Print, input: &[u8], at: usize) -> io::Result<Option<usize>> {
    let Some(
        Header {
            first: lent,
            second: used,
            name,
        },
    ) = header_at(input, at)
    else {
        return Ok(None);
    };
    let Some(stop) = name_end(input, name) else {
        return Ok(None);
    };
    say(rt, &input[name..stop])?;
    print!(rt; "\t")?;
    let mut values = [0u8; 128];
    let mut before = [BLANK; 1024];
    let mut cells = [BLANK; 1024];
    if cells.len() < lent {
        return Ok(None);
    }
    try_given(
        rt,
        input,
        stop + 1,
        &mut values,
        &mut before[..lent],
        &mut cells[..lent],
        used as u32,
    )
}

fn main(rt: HostRuntime) -> io::Result<()> {
    let mut input = [0u8; 262144];
    let n = read_full(&mut rt.stdin(), &mut input)?;
    let input = &input[..n];
    try_all(&rt, input, &mut (), |_, at| try_run(&rt, input, at))
}
