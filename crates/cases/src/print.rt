// Parts of a line, as they are printed.
ghost use Rattle.std.specs.Prelude.{◌<◌, ◌^◌};

use crate::step;
use model::{Answer, Session};
use std::fmt;

// The digits of bytes, two for each, in one write: as many as there is room for.
fn digits<const ROOM: usize>(rt: &impl Print, bytes: &[u8])
    requires { ROOM < 2 ^ 63 }
{
    let (bytes, _) = step::bytes(bytes, 65536);
    let mut out = [0; ROOM];
    let n = output::put_hex(&mut out, 0, bytes);
    let _ = rt.write_all(slices::cut(&out, 0, n));
}

// Bytes in hexadecimal, at most as many as the largest buffer has. Most are few, and need no room for many.
pub(crate) fn hex(rt: &impl Print, bytes: &[u8]) {
    if bytes.len() <= 2048 {
        digits::<4096>(rt, bytes)
    } else {
        digits::<131072>(rt, bytes)
    }
}

// What a call answered.
#[derive(Clone, Copy)]
pub(crate) struct Told(pub Answer);

impl fmt::Display for Told {
    fn fmt<W: fmt::Write>(&self, f: &mut fmt::Formatter<W>) -> fmt::Result {
        match self.0 {
            Answer::Done(stores) => write!(f, "done {stores}"),
            Answer::Stopped => write!(f, "stopped"),
            Answer::Refused(rule) => write!(f, "refused {}", u32::from(rule)),
        }
    }
}

// The size needed, where a call tells one.
#[derive(Clone, Copy)]
pub(crate) struct Needed(pub u32);

impl fmt::Display for Needed {
    fn fmt<W: fmt::Write>(&self, f: &mut fmt::Formatter<W>) -> fmt::Result {
        let needed = self.0;
        if needed == 0 {
            return Ok(());
        }
        write!(f, " needed {needed}")
    }
}

// Phase and number of locks.
#[derive(Clone, Copy)]
pub(crate) struct Held<'a>(pub &'a Session);

impl fmt::Display for Held<'_> {
    fn fmt<W: fmt::Write>(&self, f: &mut fmt::Formatter<W>) -> fmt::Result {
        let phase = self.0.phase;
        let count = self.0.count;
        write!(f, "phase {phase} count {count}")
    }
}
