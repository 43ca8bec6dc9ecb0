// The input's bytes, or why they cannot be read.
ghost use Rattle.std.specs.Prelude.{◌≤◌, length, IfOk};

use std::io;
use std::io::{ErrorKind, Read};

// Reads until the input ends or the buffer is full, and tells how many bytes stand at the start of the buffer. A read that a signal interrupts is tried again.
pub fn read_all(source: &mut (impl Read), buffer: &mut [u8]) -> io::Result<usize>
    ensures { IfOk result (λ n. n ≤ length buffer.new) }
{
    let mut count: usize = 0;
    for _ in 0..u64::MAX {
        if count >= buffer.len() {
            break;
        }
        match source.read(&mut buffer[count..]) {
            Ok(0) => break,
            Ok(more) => {
                count += more;
            }
            Err(e) => {
                if e.kind() != ErrorKind::Interrupted {
                    return Err(e);
                }
            }
        }
    }
    Ok(count)
}
