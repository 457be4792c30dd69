// Standard streams for the programs: a buffer filled from a reader as far as the input goes. What a reader has left is known where its type says it, and of standard input nothing is.
#![tactic(auto)]

ghost use Rattle.std.specs.Prelude.{◌≤◌, ◌<◌, length, take, IfOk};
ghost use Rattle.std.specs.Io.KnownBytes.{Consumes, IsAtEnd};

use std::io;
use std::io::Read;

// Reads until the buffer is full or the input ends: how many bytes came, from the front on.
// Kept: a `while` by how much came. `read_exact` does not say how much came before the end, and `read_to_end` allocates, which a rule of the project rules out.
pub fn read_full<R: Read>(input: &mut R, buf: &mut [u8]) -> io::Result<usize>
    ensures bound { IfOk result (λ n. n ≤ length buf.new) }
    ensures bytes { IfOk result (λ n. Consumes (R.remaining input.old) (R.remaining input.new) (take n buf.new)) }
    ensures end { IfOk result (λ n. n < length buf.new → IsAtEnd (R.remaining input.new)) }
{
    let mut filled: usize = 0;
    while filled < buf.len() {
        let came = input.read(&mut buf[filled..])?;
        if came == 0 {
            break;
        }
        filled += came;
    }
    Ok(filled)
}
