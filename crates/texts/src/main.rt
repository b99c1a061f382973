// Tries the reader and the writer of script text on framed texts, and prints a line for each: its name, a tab, and what came of it.
// A frame is a line `LENGTH<tab>OUT<tab>NAME`, then LENGTH bytes of text and an LF; OUT bytes are lent to the writer.
// Names tell what is tried.
#![tactic(auto)]

ghost use Rattle.std.specs.Prelude.{◌≡◌, ◌≤◌, ℕ, None, Some, length, MatchOption, IfOk, OnOk, OnErr};
ghost use Rattle.texts.specs.Frames.{frame_as, frame_at, lent, after_frame, Framed, after_frames};

mod rounds;
mod slices;

use call_texts::PLACES;
use rounds::{Round, say_text, try_text};
use script::Refusal;
use script::table::WIDTH;
use std::io;
use trial::{header_at, name_end, read_full, say, try_all};

// A frame: its name, its text, how many bytes of the output are lent to the writer, and where the next frame starts.
#[derive(Clone, Copy)]
struct Frame<'a> {
    name: &'a [u8],
    text: &'a [u8],
    share: usize,
    next: usize,
}

// What the trials are lent: a table, its entries, and bytes for the writer.
#[derive(Drop)]
struct Lent {
    table: [u32; WIDTH * PLACES],
    entries: [u32; 16],
    out: [u8; 8193],
}

// The frame at `at`, if it is of the form and the writer's share of the output is no more than `room`.
#[tactic(auto, using(crate::specs::Frames::Laws::frame_steps))]
fn frame_at(input: &[u8], at: usize, room: usize) -> Option<Frame<'_>>
    ensures { MatchOption result (frame_at input.now room at ≡ None) (λ f. frame_at input.now room at ≡ Some (frame_as f.text.now f.share f.next)) }
{
    let header = header_at(input, at)?;
    let stop = name_end(input, header.name)?;
    let rest = &input[stop + 1..];
    if *rest.get(header.first)? != b'\n' {
        return None;
    }
    if room < header.second {
        return None;
    }
    Some(Frame {
        name: &input[header.name..stop],
        text: &rest[..header.first],
        share: header.second,
        next: stop + 1 + header.first + 1,
    })
}

// Prints the line of a frame.
fn say_frame(
    rt: &impl Print,
    frame: &Frame<'_>,
    table: &[u32],
    entries: &[u32],
    out: &[u8],
    round: Result<Round, Refusal>,
) -> io::Result<()> {
    say(rt, frame.name)?;
    print!(rt; "\t")?;
    say_text(rt, frame.text, table, entries, out, round)?;
    print!(rt; "\n")
}

// Tries the frame at `at`, with `out` to lend from, and answers where the next one starts; none after a malformed one. Only its printing can fail, and that
// comes last.
#[tactic(auto, using(crate::specs::Frames::Laws::share_most, crate::specs::Frames::Laws::share_lent))]
fn try_frame(
    rt: &impl Print,
    input: &[u8],
    at: usize,
    table: &mut [u32],
    entries: &mut [u32],
    out: &mut [u8],
) -> io::Result<Option<usize>>
    ensures ok { IfOk result (λ next. Framed (frame_at input.now (length out.old) at) (lent table.old entries.old out.old) next (lent table.new entries.new out.new)) }
    ensures err { OnErr result (lent table.new entries.new out.new ≡ after_frame (frame_at input.now (length out.old) at) (lent table.old entries.old out.old)) }
{
    let Some(frame) = frame_at(input, at, out.len()) else {
        return Ok(None);
    };
    let round = try_text(frame.text, table, entries, &mut out[..frame.share]);
    say_frame(rt, &frame, table, entries, &out[..frame.share], round)?;
    Ok(Some(frame.next))
}

// Tries all frames in turn. A malformed one ends it, and so does a failure to print, after which what is lent holds what the trials up to there leave.
fn try_frames(rt: &impl Print, input: &[u8], lent: &mut Lent) -> io::Result<()>
    ensures ok { OnOk result (lent.new ≡ after_frames input.now (length input.now) 0 lent.old) }
    ensures err { OnErr result ((turns : ℕ) × (lent.new ≡ after_frames input.now turns 0 lent.old)) }
{
    try_all(
        rt,
        input,
        lent,
        |Lent {
            table,
            entries,
            out,
        }, at| { try_frame(rt, input, at, table, entries, out) },
    )
}

fn main(rt: HostRuntime) -> io::Result<()> {
    let mut input = [0u8; 262144];
    let n = read_full(&mut rt.stdin(), &mut input)?;
    let mut lent = Lent {
        table: [0; WIDTH * PLACES],
        entries: [0; 16],
        out: [0; 8193],
    };
    try_frames(&rt, &input[..n], &mut lent)
}
