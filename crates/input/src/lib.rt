// What the programs read: all of their input, up to the room that they have for it.
#![tactic(auto)]

ghost use Rattle.std.specs.Prelude.{◌<◌, length, take, IfOk};
ghost use Rattle.std.specs.Io.{ReadsAtMost};
ghost use Rattle.std.specs.Io.KnownBytes.{Consumes, IsAtEnd};

use std::io::{self, Read};

// Reads until there is no more room or the input ends, and answers how many bytes it put at the start.
pub fn read_full<R: Read>(input: &mut R, bytes: &mut [u8]) -> io::Result<usize>
    ensures within { ReadsAtMost result bytes.new }
    ensures bytes { IfOk result (λ n. Consumes (R.remaining input.old) (R.remaining input.new) (take n bytes.new)) }
    ensures end { IfOk result (λ n. n < length bytes.new → IsAtEnd (R.remaining input.new)) }
{
    let mut done: usize = 0;
    // No `for`: a read brings as many bytes as it likes.
    while done < bytes.len() {
        let read = input.read(&mut bytes[done..])?;
        if read == 0 {
            return Ok(done);
        }
        done += read;
    }
    Ok(done)
}
