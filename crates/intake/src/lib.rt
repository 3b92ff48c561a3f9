// What a program reads from its standard input, into a buffer that is lent. Assumes nothing.
#![tactic(auto)]

ghost use Rattle.std.specs.Io.{ReadsAtMost};

use std::io;
use std::io::Read;

// Reads until the buffer is full or the input ends; gives how many bytes it put at the buffer's start. A while loop, since a read says itself how far
// it came.
pub fn read_full(rt: &impl Input, buffer: &mut [u8]) -> io::Result<usize>
    ensures { ReadsAtMost result buffer.new }
{
    let mut reader = rt.reader();
    let mut done = 0;
    while done < buffer.len() {
        let n = reader.read(&mut buffer[done..])?;
        if n == 0 {
            break;
        }
        done = done + n;
    }
    Ok(done)
}
