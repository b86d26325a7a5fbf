// Writing a text whole.
ghost use Rattle.std.specs.Prelude.{◌≡◌, ◌-◌, ◌^◌, length};
ghost use Rattle.std.specs.Result.{result_ok};
ghost use Rattle.streams.specs.Known.{Writes, WritesWhole};
ghost use Rattle.streams.specs.steps.Room.{Within};
ghost use Rattle.streams.specs.WriteStep.{after_write};

use crate::call::repeated;
use std::io;
use std::io::{ErrorKind, Write};

// Writes all of `text`, or stops at the first write that fails or takes nothing.
pub fn write_whole<W: Write>(target: &mut W, text: &[u8]) -> io::Result<()>
    ensures { WritesWhole (W.contents target.old) (W.contents target.new) text.now result }
{
    let mut at = 0;
    // a step is as long as what came, so no range says it
    while at < text.len() {
        at = advance(at, write_some(target, &text[at..]))?;
    }
    Ok(())
}

// Where writing stands once a write is over that began at `at`; no text is so long that the sum does not fit. A write that takes nothing fails,
// where a read that gives nothing is the end.
fn advance(at: usize, came: io::Result<usize>) -> io::Result<usize>
    requires { Within (2 ^ 63 - at) came }
    ensures { result_ok result ≡ after_write at came }
{
    match came? {
        0 => Err(io::Error::from(ErrorKind::WriteZero)),
        count => Ok(at + count),
    }
}

// One write, made again while signals interrupt it.
fn write_some<W: Write>(target: &mut W, text: &[u8]) -> io::Result<usize>
    ensures within { Within (length text.now) result }
    ensures bytes { Writes (W.contents target.old) (W.contents target.new) text.now result }
{
    // A write gives no bytes, so its room is empty.
    repeated(target, &mut [], |target, _| target.write(text))
}
