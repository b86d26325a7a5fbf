// Moving a list: all windows go earlier or later by a signed number of slots, in the caller's own list. Releases and deadlines are two lists of numbers,
// as 01's number form has them and the public promises speak of them.
#![tactic(auto)]

ghost use Rattle.std.specs.Prelude.{◌≡◌, ◌≤◌, ◌↔◌, IsTrue, length, pos, ◌+ℤ◌};
ghost use Rattle.day.specs.Windows.{windows};
ghost use Rattle.checks.specs.Answer.{checked};
ghost use Rattle.checks.specs.Refusal.{◌then◌, Passed};
ghost use Rattle.checks.specs.steps.FirstIn.{FirstIn};
ghost use Rattle.checks.specs.Check.{TimesCheck};
ghost use Rattle.moving.specs.Moving.{WindowLeaves, LeavesDay, MoveCheck, FirstMoved, MovePromise};
ghost use Rattle.moving.specs.steps.Movable.{Movable};

use checks::check_times;
use checks::outcome::Refusal;
use day::at_or_zero;

// Moves every row by `by` slots; a positive number is later. Where it refuses, no list is touched.
pub fn move_list(
    slots: u16,
    by: i16,
    releases: &mut [u16],
    deadlines: &mut [u16],
) -> Result<(), Refusal>
    ensures { MovePromise slots by releases.old deadlines.old (checked result) releases.new deadlines.new }
{
    check_move(slots, by, releases, deadlines)?;
    let count = releases.len();
    move_first(by, count, releases);
    move_first(by, count, deadlines);
    Ok(())
}

// Judges the day, the rows and where each row would come to lie.
fn check_move(slots: u16, by: i16, releases: &[u16], deadlines: &[u16]) -> Result<(), Refusal>
    ensures { (MoveCheck (TimesCheck slots (windows releases.now deadlines.now)) slots by (windows releases.now deadlines.now) then Passed) (checked result) }
{
    check_times(slots, releases, deadlines)?;
    match first_leaving(slots, by, releases, deadlines) {
        Some(row) => Err(Refusal::LeavesDay((row + 1) as u16)),
        None => Ok(()),
    }
}

// The first row whose moved window would leave the day, counted from 0.
fn first_leaving(slots: u16, by: i16, releases: &[u16], deadlines: &[u16]) -> Option<usize>
    ensures { FirstIn (length releases.now) (LeavesDay slots by (windows releases.now deadlines.now)) result }
{
    for (row, release) in releases.iter().enumerate() {
        if leaves_day(slots, by, *release, at_or_zero(deadlines, row)) {
            return Some(row);
        }
    }
    None
}

// Whether a window, moved, begins before slot 0 or ends after the day.
fn leaves_day(slots: u16, by: i16, release: u16, deadline: u16) -> bool
    ensures { IsTrue result ↔ WindowLeaves slots by release deadline }
{
    moved(release, by) < 0 || moved(deadline, by) > i32::from(slots)
}

// Moves the first `count` numbers of `list`, none of which gets below 0 or above what a number holds.
fn move_first(by: i16, count: usize, list: &mut [u16])
    requires { (count ≤ length list.old) × Movable by count list.old }
    ensures { FirstMoved by count list.old list.new }
{
    for number in list[..count].iter_mut() {
        *number = moved(*number, by) as u16;
    }
}

// A number moved by a signed number of slots; it may get below 0.
fn moved(number: u16, by: i16) -> i32
    ensures { result ≡ pos number +ℤ by }
{
    i32::from(number) + i32::from(by)
}
