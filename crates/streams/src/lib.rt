// Reading from a stream into a lent buffer.
#![tactic(auto)]

ghost use Rattle.std.specs.Prelude.{◌≡◌, min, length, IfSome, OnOk, take};
ghost use Rattle.std.specs.Counts.{IsPrefixLen};
ghost use Rattle.std.specs.Io.{StartsWith};

use std::io;
use std::io::Read;

// Reads until the buffer is full, the stream ends or a read fails, and tells how many bytes it has put at the buffer's front: the stream's first ones; and the failure, if
// one has stopped it. Where none has, they are as many as the buffer has room for, or all. Bytes that a full buffer has no room for are not read.
pub fn read_full<R: Read + Drop>(from: R, buffer: &mut [u8]) -> (usize, io::Result<()>)
    ensures within { IsPrefixLen result.0 buffer.new }
    ensures whole { OnOk result.1 (IfSome (R.remaining from) (λ xs. result.0 ≡ min (length xs) (length buffer.new))) }
    ensures bytes { IfSome (R.remaining from) (λ xs. StartsWith xs (take result.0 buffer.new)) }
{
    let mut stream = from;
    let mut done = 0;
    while done < buffer.len() {
        match stream.read(&mut buffer[done..]) {
            Ok(0) => return (done, Ok(())),
            Ok(n) => done += n,
            Err(e) => return (done, Err(e)),
        }
    }
    (done, Ok(()))
}
