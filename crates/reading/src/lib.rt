#![tactic(auto)]
// The bytes of an input, into a buffer of a fixed size; and the part of a buffer that was filled.
ghost use Rattle.std.specs.Prelude.{◌≡◌, ◌<◌, ◌≤◌, length, take, IfOk};
ghost use Rattle.std.specs.Io.KnownBytes.{Consumes, IsAtEnd};

use std::io;
use std::io::Read;

// Reads until the buffer is full or the input ends: how many bytes came. They stand at the buffer's front, and where they leave room,
// the input has no more. A `while`, as each read brings as many bytes as it likes.
pub fn fill<R: Read>(input: &mut R, buffer: &mut [u8]) -> io::Result<usize>
    ensures within { IfOk result (λ n. n ≤ length buffer.new) }
    ensures front { IfOk result (λ n. Consumes (R.remaining input.old) (R.remaining input.new) (take n buffer.new)) }
    ensures whole { IfOk result (λ n. n < length buffer.new → IsAtEnd (R.remaining input.new)) }
{
    let mut at = 0;
    while at < buffer.len() {
        let n = input.read(&mut buffer[at..])?;
        if n == 0 {
            return Ok(at);
        }
        at += n;
    }
    Ok(at)
}

// The first n of a list, or all of it where it has fewer.
pub fn front<T>(list: &[T], n: usize) -> &[T]
    ensures { result.now ≡ take n list.now }
{
    &list[..n.min(list.len())]
}
