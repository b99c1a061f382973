// Reading an input whole into lent bytes.
#![tactic(auto)]

ghost use Rattle.std.specs.Prelude.{◌≤◌, length, take};
ghost use Rattle.std.specs.Io.KnownBytes.{Consumes};

use std::io;
use std::io::Read;

// Reads until the bytes are full, the input ends or it cannot be read: how many were read, and the error if it could not.
pub fn read_full<R: Read>(from: &mut R, into: &mut [u8]) -> (usize, io::Result<()>)
    ensures count { result.0 ≤ length into.old }
    ensures bytes { Consumes (R.remaining from.old) (R.remaining from.new) (take result.0 into.new) }
{
    let mut done = 0;
    while done < into.len() {
        match from.read(&mut into[done..]) {
            Ok(0) => break,
            Ok(count) => done += count,
            Err(why) => return (done, Err(why)),
        }
    }
    (done, Ok(()))
}
