// The checks that entry points share, in what they answer: codes 1 to 4, with the limits of document 01. Releases and deadlines are two lists of numbers,
// as 01's number form has them and the public promises speak of them.
#![tactic(auto)]

pub mod code;
pub mod outcome;

ghost use Rattle.std.specs.Prelude.{◌≡◌, length};
ghost use Rattle.day.specs.Windows.{windows};
ghost use Rattle.checks.specs.Zero.{zeroed};
ghost use Rattle.checks.specs.Answer.{says, done, checked};
ghost use Rattle.checks.specs.Refusal.{◌then◌, Passed};
ghost use Rattle.checks.specs.Check.{SlotsCheck, PowerCheck, BadRow, JobsCheck, TimesCheck, ListCheck};
ghost use Rattle.checks.specs.steps.FirstIn.{FirstIn};

use crate::outcome::Refusal;
use day::{Day, Power, at_or_zero};

// A code and two numbers, as C's record has them; a number that the code doesn't name is 0.
#[repr(C)]
#[derive(Clone, Copy, PartialEq, Eq)]
pub struct Answer {
    pub code: u16,
    pub first: u16,
    pub second: u16,
}

impl Answer {
    // An answer whose code names no number. It takes any code, one that no refusal has too.
    pub fn of(code: u16) -> Self
        ensures { result ≡ says code 0 0 }
    {
        Self {
            code,
            first: 0,
            second: 0,
        }
    }

    // The answer 0 with its first number.
    pub fn done(first: u16) -> Self
        ensures { result ≡ says done first 0 }
    {
        Self {
            code: code::DONE,
            first,
            second: 0,
        }
    }
}

// The most that document 01 takes of each.
pub const MOST_SLOTS: u16 = 96;

pub const MOST_WAKE: u16 = 1000;

pub const MOST_JOBS: u16 = 40;

// Sets the first `count` places to 0, or all of them where there are fewer.
pub fn zero_first(places: &mut [u16], count: usize)
    ensures { places.new ≡ zeroed count places.old }
{
    let end = count.min(places.len());
    places[..end].fill(0);
}

// Refuses a day without slots or with more than `limit`.
pub fn check_slots(slots: u16, limit: u16) -> Result<(), Refusal>
    ensures { (SlotsCheck limit slots then Passed) (checked result) }
{
    if slots == 0 {
        return Err(Refusal::BadSlots);
    }
    if slots > limit {
        return Err(Refusal::BadSlots);
    }
    Ok(())
}

// Refuses a wake that costs too much.
pub fn check_power(power: Power) -> Result<(), Refusal>
    ensures { (PowerCheck power then Passed) (checked result) }
{
    if power.wake > MOST_WAKE {
        return Err(Refusal::BadWake);
    }
    Ok(())
}

// The first row whose window is empty or ends after the day, counted from 0.
fn first_bad_row(slots: u16, releases: &[u16], deadlines: &[u16]) -> Option<usize>
    ensures { FirstIn (length releases.now) (BadRow slots (windows releases.now deadlines.now)) result }
{
    for (row, release) in releases.iter().enumerate() {
        let deadline = at_or_zero(deadlines, row);
        if *release >= deadline || deadline > slots {
            return Some(row);
        }
    }
    None
}

// Refuses more than `limit` rows, then the first row whose window is empty or ends after the day.
pub fn check_jobs(
    slots: u16,
    releases: &[u16],
    deadlines: &[u16],
    limit: u16,
) -> Result<(), Refusal>
    ensures { (JobsCheck limit slots (windows releases.now deadlines.now) then Passed) (checked result) }
{
    if releases.len() > usize::from(limit) {
        return Err(Refusal::TooManyJobs);
    }
    match first_bad_row(slots, releases, deadlines) {
        Some(row) => Err(Refusal::BadRow((row + 1) as u16)),
        None => Ok(()),
    }
}

// Codes 1, 3 and 4, with the limits of document 01: no power is asked for.
pub fn check_times(slots: u16, releases: &[u16], deadlines: &[u16]) -> Result<(), Refusal>
    ensures { (TimesCheck slots (windows releases.now deadlines.now) then Passed) (checked result) }
{
    check_slots(slots, MOST_SLOTS)?;
    check_jobs(slots, releases, deadlines, MOST_JOBS)
}

// Codes 1 to 4, with the limits of document 01.
pub fn check_list(day: Day, releases: &[u16], deadlines: &[u16]) -> Result<(), Refusal>
    ensures { (ListCheck day (windows releases.now deadlines.now) then Passed) (checked result) }
{
    check_slots(day.slots, MOST_SLOTS)?;
    check_power(day.power)?;
    check_jobs(day.slots, releases, deadlines, MOST_JOBS)
}
