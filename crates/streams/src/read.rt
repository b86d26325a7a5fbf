// Reading an input to its end.
ghost use Rattle.std.specs.Prelude.{◌≡◌, ◌-◌, ◌^◌, length};
ghost use Rattle.streams.specs.Known.{Reads, ReadsWhole};
ghost use Rattle.streams.specs.ReadStep.{FitsIn, after_read};
ghost use Rattle.streams.specs.steps.Room.{Within};

use crate::call::repeated;
use std::io;
use std::io::Read;

// Reads until the input ends or `file` is full, and tells how much was read. Nothing else ends an input.
pub fn read_whole<R: Read>(source: &mut R, file: &mut [u8]) -> io::Result<usize>
    ensures fits { FitsIn file.new result }
    ensures bytes { ReadsWhole (R.remaining source.old) (R.remaining source.new) file.new result }
{
    let mut at = 0;
    // a step is as long as what came, so no range says it
    while at < file.len() {
        match advance(at, read_some(source, &mut file[at..]))? {
            Some(next) => at = next,
            None => return Ok(at),
        }
    }
    Ok(at)
}

// Where reading stands once a read is over that began with `at` bytes there, or that the input is over; no buffer is so long that the sum does
// not fit. It is not one with the writer's, which has no end to tell: `after_read` and `after_write` differ.
fn advance(at: usize, came: io::Result<usize>) -> io::Result<Option<usize>>
    requires { Within (2 ^ 63 - at) came }
    ensures { result ≡ after_read at came }
{
    match came? {
        0 => Ok(None),
        count => Ok(Some(at + count)),
    }
}

// One read, made again while signals interrupt it.
fn read_some<R: Read>(source: &mut R, room: &mut [u8]) -> io::Result<usize>
    ensures within { Within (length room.new) result }
    ensures bytes { Reads (R.remaining source.old) (R.remaining source.new) room.new result }
{
    repeated(source, room, |source, room| source.read(room))
}
