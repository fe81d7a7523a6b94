//! Filling a buffer from a reader.
ghost use Rattle.std.specs.Prelude.{◌<◌, ◌≤◌, length, take, IfOk};
ghost use Rattle.std.specs.Io.KnownBytes.{Consumes, IsAtEnd};

use std::io;
use std::io::Read;

/// Fills a buffer from the front until it is full or the reader ends, and says how many bytes it put there. Where it
/// is known what the reader has left, these are its next bytes, it has lost just them, and a buffer that is not
/// filled means that it has no more. An error is that of the read that failed, an interrupted one too; how much was
/// read before it, and what then stands in the buffer, is left free.
pub fn read_full<R: Read>(reader: &mut R, place: &mut [u8]) -> io::Result<usize>
    ensures count { IfOk result (λ n. n ≤ length place.new) }
    ensures bytes { IfOk result (λ n. Consumes (R.remaining reader.old) (R.remaining reader.new) (take n place.new)) }
    ensures end { IfOk result (λ n. n < length place.new → IsAtEnd (R.remaining reader.new)) }
{
    let mut got = 0;
    while got < place.len() {
        let n = reader.read(&mut place[got..])?;
        if n == 0 {
            return Ok(got);
        }
        got += n;
    }
    Ok(got)
}
