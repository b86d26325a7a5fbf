// A call of read or write, which a signal may interrupt before it moves a byte.
ghost use Rattle.std.specs.Prelude.{◌↔◌, IsTrue, IsErrAnd};
ghost use Rattle.streams.specs.Calls.{IsInterruption};
ghost use Rattle.streams.specs.steps.Repeats.{Gives, Repeats};

use std::io;
use std::io::ErrorKind;

// Linux's number for a call that a signal interrupted.
const EINTR: i32 = 4;

// An interrupted call is made again up to this many times in a row.
const MOST_RETRIES: u16 = 1000;

// Makes a call, and makes it again while signals interrupt it. `room` is for the bytes that a call gives.
pub(crate) fn repeated<S, F: Fn(&mut S, &mut [u8]) -> io::Result<usize>>(
    stream: &mut S,
    room: &mut [u8],
    call: F,
) -> io::Result<usize>
    requires { F.IsAlwaysCallable call }
    ensures { Repeats (Gives F.Fn call) 0 (stream.old, room.old) result (stream.new, room.new) }
{
    for _ in 0..MOST_RETRIES {
        let answer = call(stream, room);
        if !is_interrupted(&answer) {
            return answer;
        }
    }
    call(stream, room)
}

// Whether a signal interrupted a call: by the system's number of its error, and by the error's kind where it has none.
fn is_interrupted(answer: &io::Result<usize>) -> bool
    ensures { IsTrue result ↔ IsErrAnd answer.now IsInterruption }
{
    match answer {
        Ok(_) => false,
        Err(error) => match error.raw_os_error() {
            Some(code) => code == EINTR,
            None => error.kind() == ErrorKind::Interrupted,
        },
    }
}
