// Reads a day file on standard input and writes its plan to standard output. A read that fails is never planned, and output that is lost is
// told: either is one line on standard error, by which the script that starts the program knows.
#![tactic(auto)]

ghost use Rattle.std.specs.Prelude.{◌≡◌, ◌+◌, length};
ghost use Rattle.report.specs.File.{most_bytes};
ghost use Rattle.dayplan.specs.Program.{Printed};

use std::io::{Read, Write};
use streams::{read, write};
use text::Text;

// What may fail: the plan is not printed, or not whole.
#[derive(Clone, Copy)]
enum Failure {
    Input,
    Output,
}

impl Failure {
    // The line that tells it.
    fn line(self) -> &'static [u8] {
        match self {
            Failure::Input => b"dayplan: the input can't be read.\n",
            Failure::Output => b"dayplan: the plan can't be written whole.\n",
        }
    }
}

// A byte more than the longest file that is planned, so that a longer one shows.
fn input() -> [u8; 4097]
    ensures { most_bytes + 1 ≡ length result }
{
    [0; 4097]
}

// The text for what was read.
fn printed(file: &[u8]) -> Text
    ensures { Printed file.now result }
{
    let mut places = [0u16; 30625];
    report::report(file, &mut places)
}

fn main(rt: HostRuntime) {
    if let Err(failure) = print(&mut rt.stdin(), &mut rt.stdout()) {
        complain(&mut rt.stderr(), failure);
    }
}

// Reads the input whole and writes the text for it.
fn print(source: &mut impl Read, target: &mut impl Write) -> Result<(), Failure> {
    let mut file = input();
    let length = read::read_whole(source, &mut file).map_err(|_| Failure::Input)?;
    let text = printed(&file[..length]);
    write::write_whole(target, &text.bytes[..text.len]).map_err(|_| Failure::Output)
}

// Writes a line to standard error. If that fails too, there is nobody left to tell.
fn complain(errors: &mut impl Write, failure: Failure) {
    let _ = write::write_whole(errors, failure.line());
}
