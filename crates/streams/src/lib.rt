// How the programs read a text to its end, and write what they print.
#![tactic(auto)]

ghost use Rattle.std.specs.Prelude.{◌<◌, length, take, IfOk};
ghost use Rattle.std.specs.Io.{ReadsAtMost};
ghost use Rattle.std.specs.Io.KnownBytes.{Consumes, IsAtEnd};

use std::io;
use std::io::{ErrorKind, Read};

// The bytes that a reader gives, until its end or until the buffer is full: how many of them stand in front of the buffer. A read that fails is an error, and
// not the end of a shorter text.
pub fn read_text<R: Read>(reader: &mut R, text: &mut [u8]) -> io::Result<usize>
    ensures bound { ReadsAtMost result text.new }
    ensures bytes { IfOk result
        (λ n. Consumes (R.remaining reader.old) (R.remaining reader.new) (take n text.new)) }
    ensures whole { IfOk result (λ n. n < length text.new → IsAtEnd (R.remaining reader.new)) }
{
    let mut count = 0;
    for _ in 0..u64::MAX {
        if count >= text.len() {
            return Ok(count);
        }
        match reader.read(&mut text[count..]) {
            Ok(0) => return Ok(count),
            Ok(n) => count += n,
            Err(e) => {
                if e.kind() != ErrorKind::Interrupted {
                    return Err(e);
                }
            }
        }
    }
    Err(io::Error::from(ErrorKind::TimedOut))
}

// What is printed, to standard output; where it cannot be written in full, a line to standard error.
pub fn write_out(output: &impl Print, errors: &impl Print, bytes: &[u8], failed: &[u8]) {
    if output.write_all(bytes).is_err() {
        let _ = errors.write_all(failed);
    }
}
