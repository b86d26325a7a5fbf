// Reading a day file.
ghost use Rattle.std.specs.Prelude.{◌≡◌, ◌+◌, ◌*◌, ◌<◌, ◌≤◌, length, IfOk};
ghost use Rattle.checks.specs.Answer.{checked};
ghost use Rattle.checks.specs.Refusal.{◌then◌, Passed};
ghost use Rattle.day.specs.Windows.{at};
ghost use Rattle.dayfile.specs.Bytes.{number_at};
ghost use Rattle.dayfile.specs.Format.{number_in_row};
ghost use Rattle.dayfile.specs.Reader.{FilledFrom, FileCheck, as_reading, ReadPromise};
ghost use Rattle.dayfile.specs.steps.Trailer.{TrailerCheck, GoodFile, file_header};

use crate::{MARK, ROW, TRAILER};
use checks::outcome::Refusal;
use checks::{Answer, MOST_JOBS};
use day::{Day, Power};

// What the reader gives beside the rows that it fills: how many, since it fills the first places of lists that may be longer, and the day.
#[derive(Clone, Copy)]
pub struct Header {
    pub count: u16,
    pub day: Day,
}

impl Header {
    // The header of a file that has a trailer.
    fn of(file: &[u8]) -> Header
        requires { 10 ≤ length file.now }
        ensures { result ≡ file_header file.now }
    {
        let end = file.len();
        let slots = number_at(file, end - 8);
        let wake = number_at(file, end - 6);
        Header {
            count: number_at(file, end - TRAILER),
            day: Day {
                slots,
                power: Power { wake },
            },
        }
    }
}

// What C gets of the reader's outcome: the answer, and the header, whose numbers are 0 under a refusal.
#[repr(C)]
#[derive(Clone, Copy)]
pub struct Reading {
    pub answer: Answer,
    pub count: u16,
    pub day: Day,
}

impl From<Result<Header, Refusal>> for Reading {
    ghost use Rattle.dayfile.specs.Reader.{as_reading};

    ghost from_gives = { λ outcome reading. reading ≡ as_reading outcome };

    fn from(outcome: Result<Header, Refusal>) -> Reading {
        match outcome {
            Ok(header) => Reading {
                answer: Answer::done(0),
                count: header.count,
                day: header.day,
            },
            Err(refusal) => Reading {
                answer: Answer::from(refusal),
                count: 0,
                day: Day {
                    slots: 0,
                    power: Power { wake: 0 },
                },
            },
        }
    }
}

// Reads the rows and the trailer of `file` into the first places of the lent lists. Where it refuses, no list is touched. Releases
// and deadlines are two lists of numbers, as 01's number form has them and ReadPromise speaks of them.
pub fn read(file: &[u8], releases: &mut [u16], deadlines: &mut [u16]) -> Result<Header, Refusal>
    ensures { ReadPromise file.now releases.old deadlines.old (as_reading result) releases.new deadlines.new }
{
    check_file(file, releases.len().min(deadlines.len()))?;
    let header = Header::of(file);
    let count = usize::from(header.count);
    let first = file.len() - (ROW * count + TRAILER);
    read_column(file, first, &mut releases[..count]);
    read_column(file, first + 2, &mut deadlines[..count]);
    Ok(header)
}

// Refuses a file that is no day file, or has more rows than a reader with room for `room` rows.
fn check_file(file: &[u8], room: usize) -> Result<(), Refusal>
    ensures refuses { (FileCheck file.now room then Passed) (checked result) }
    ensures good { IfOk result (λ _. GoodFile file.now room) }
{
    let end = file.len();
    if end < TRAILER {
        return Err(Refusal::ShortFile);
    }
    if number_at(file, end - 2) != MARK {
        return Err(Refusal::WrongMark);
    }
    let count = usize::from(number_at(file, end - TRAILER));
    let distance = usize::from(number_at(file, end - 4));
    check_rows(count, distance, end, room)
}

// Refuses what the trailer says of the rows in a file of `end` bytes.
fn check_rows(count: usize, distance: usize, end: usize, room: usize) -> Result<(), Refusal>
    ensures { (TrailerCheck count distance end room then Passed) (checked result) }
{
    if count > usize::from(MOST_JOBS) {
        return Err(Refusal::TooManyJobs);
    }
    if distance != ROW * count + TRAILER {
        return Err(Refusal::WrongDistance);
    }
    if end < distance {
        return Err(Refusal::CutFile);
    }
    if room < count {
        return Err(Refusal::FewRows);
    }
    Ok(())
}

// Fills `list` with one number of each row; the first row's stands at the byte `from`.
#[tactic(auto, using(day::proofs::Changed::filled_next), unfolding(crate::specs::Format::number_in_row))]
fn read_column(file: &[u8], from: usize, list: &mut [u16])
    requires { from + 4 * length list.old ≤ length file.now }
    ensures { FilledFrom (length list.old) (number_in_row file.now from) list.old list.new }
{
    for (row, number) in list.iter_mut().enumerate() {
        *number = number_at(file, from + ROW * row);
    }
}

// The number in two bytes of `file`.
#[tactic(auto, unfolding(crate::specs::Bytes::number_at))]
fn number_at(file: &[u8], place: usize) -> u16
    requires { place + 1 < length file.now }
    ensures { (result ≡ number_at file.now place) × (at file.now place < 256) }
{
    u16::from_le_bytes([file[place], file[place + 1]])
}
