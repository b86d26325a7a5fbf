// Writing a day file.
#![tactic(auto)]

ghost use Rattle.std.specs.Prelude.{◌≡◌, ◌+◌, ◌*◌, ◌<◌, length, IfOk};
ghost use Rattle.std.specs.List.{flat_map};
ghost use Rattle.checks.specs.Answer.{checked};
ghost use Rattle.checks.specs.Refusal.{◌then◌, Passed};
ghost use Rattle.day.specs.Windows.{windows};
ghost use Rattle.dayfile.specs.Bytes.{bytes_of};
ghost use Rattle.dayfile.specs.Format.{rows_bytes, trailer};
ghost use Rattle.filewriter.specs.Writer.{RoomCheck, Writable, WritePromise};

use checks::MOST_JOBS;
use checks::outcome::Refusal;
use day::{Day, at_or_zero};
use dayfile::{MARK, ROW, TRAILER};

// Writes rows and trailer after the first `notes` bytes of `file`. Where it refuses, no byte is touched. Releases and deadlines are
// two lists of numbers, as 01's number form has them and WritePromise speaks of them.
pub fn write(
    notes: usize,
    day: Day,
    releases: &[u16],
    deadlines: &[u16],
    file: &mut [u8],
) -> Result<(), Refusal>
    ensures { WritePromise notes day releases.now deadlines.now file.old (checked result) file.new }
{
    check_room(notes, releases.len(), file.len())?;
    let end = notes + ROW * releases.len();
    write_rows(releases, deadlines, &mut file[notes..end]);
    write_trailer(releases.len() as u16, day, &mut file[end..end + TRAILER]);
    Ok(())
}

// Refuses too many rows, and a buffer of `room` bytes that has no room for rows and trailer after the first `notes`.
fn check_room(notes: usize, count: usize, room: usize) -> Result<(), Refusal>
    ensures refuses { (RoomCheck notes count room then Passed) (checked result) }
    ensures writable { IfOk result (λ _. Writable notes count room) }
{
    if count > usize::from(MOST_JOBS) {
        return Err(Refusal::TooManyJobs);
    }
    let distance = ROW * count + TRAILER;
    if room < distance || room - distance < notes {
        return Err(Refusal::NoRoom);
    }
    Ok(())
}

// Writes a row for each release.
fn write_rows(releases: &[u16], deadlines: &[u16], rows: &mut [u8])
    requires { length rows.old ≡ 4 * length releases.now }
    ensures { rows.new ≡ rows_bytes (windows releases.now deadlines.now) (length releases.now) }
{
    for (row, release) in releases.iter().enumerate() {
        let place = ROW * row;
        let numbers = [*release, at_or_zero(deadlines, row)];
        write_numbers(&numbers, &mut rows[place..place + ROW]);
    }
}

fn write_trailer(count: u16, day: Day, bytes: &mut [u8])
    requires { (4 * count + 10 < 65536) × (length bytes.old ≡ 10) }
    ensures { bytes.new ≡ trailer count day }
{
    let distance = 4 * count + 10;
    write_numbers(&[count, day.slots, day.power.wake, distance, MARK], bytes);
}

fn write_numbers(numbers: &[u16], bytes: &mut [u8])
    requires { length bytes.old ≡ 2 * length numbers.now }
    ensures { bytes.new ≡ flat_map bytes_of numbers.now }
{
    for (i, number) in numbers.iter().enumerate() {
        bytes[2 * i..2 * i + 2].copy_from_slice(&number.to_le_bytes());
    }
}
