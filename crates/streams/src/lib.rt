// Reading until a buffer is full or the input ends.
#![tactic(auto)]

ghost use Rattle.std.specs.Prelude.{◌≡◌, ◌<◌, ℕ, length, take, All, IfOk, OnErr};
ghost use Rattle.std.specs.Io.{ReadsAtMost};
ghost use Rattle.std.specs.Io.KnownBytes.{Consumes, IsAtEnd};

use std::io::{self, Read};

// So many zeros, for a program that reads or prints much.
pub fn large_buffer<const N: usize>() -> [u8; N]
    ensures size { N ≡ length result }
    ensures zeros { All (λ b. b ≡ 0) result }
{
    [0; N]
}

// Reads until `buf` is full or the input ends, and returns how many bytes it put at the start of
// `buf`. On an empty `buf` it asks for nothing. What was read before a read failed stands at the start of `buf`.
pub fn read_full<R: Read>(reader: &mut R, buf: &mut [u8]) -> io::Result<usize>
    ensures in_bounds { ReadsAtMost result buf.new }
    ensures bytes { IfOk result (λ n. Consumes (R.remaining reader.old) (R.remaining reader.new) (take n buf.new)) }
    ensures none_lost { OnErr result ((n : ℕ) × Consumes (R.remaining reader.old) (R.remaining reader.new) (take n buf.new)) }
    ensures end { IfOk result (λ n. n < length buf.new → IsAtEnd (R.remaining reader.new)) }
{
    let mut done = 0;
    // This is no `for`: each turn goes on by as many bytes as a read gave, and not by one.
    while done < buf.len() {
        let n = reader.read(&mut buf[done..])?;
        if n == 0 {
            break;
        }
        done += n;
    }
    Ok(done)
}
