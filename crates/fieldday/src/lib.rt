// A day that is walked through in the field: a list, the plan held, and the current slot. It goes in by value and comes back by value, and every call
// judges it anew. Releases and deadlines are two lists of numbers, as 01's number form has them and the public promises speak of them.
#![tactic(auto)]

mod cut;
mod held;

ghost use Rattle.std.specs.Prelude.{◌≡◌};
ghost use Rattle.fieldday.specs.Held.{no_day};
ghost use Rattle.fieldday.specs.Promise.{OpenPromise, AdvancePromise, AddPromise, OfferPromise};
ghost use Rattle.fieldday.specs.steps.Came.{came};

use checks::Answer;
use checks::outcome::Refusal;
use day::{Day, Job};

// As C's record has them: three columns, whose first `count` places are the jobs' rows and their starts.
#[repr(C)]
#[derive(Clone, Copy, PartialEq, Eq)]
pub struct FieldDay {
    pub day: Day,
    pub slot: u16,
    pub count: u16,
    pub releases: [u16; 40],
    pub deadlines: [u16; 40],
    pub starts: [u16; 40],
}

// The answer of a call, and the day held after it, as C's record has them: a refused call gives back the day, so it is no Result.
#[repr(C)]
#[derive(Clone, Copy, PartialEq, Eq)]
pub struct FieldAnswer {
    pub answer: Answer,
    pub held: FieldDay,
}

impl FieldAnswer {
    // The first number and the day that a call comes to; the day that was given where it refuses.
    fn of(given: FieldDay, outcome: Result<(u16, FieldDay), Refusal>) -> FieldAnswer
        ensures { result ≡ came given outcome }
    {
        match outcome {
            Ok((first, held)) => FieldAnswer {
                answer: Answer::done(first),
                held,
            },
            Err(refusal) => FieldAnswer {
                answer: Answer::from(refusal),
                held: given,
            },
        }
    }
}

// The cost of a plan that is proper for a list, and their day at slot 0.
fn opened(
    day: Day,
    releases: &[u16],
    deadlines: &[u16],
    starts: &[u16],
) -> Result<(u16, FieldDay), Refusal>
    ensures { OpenPromise day releases.now deadlines.now starts.now (came no_day result) }
{
    let cost = claim::price(day, releases, deadlines, starts)?;
    let held = FieldDay::of_rows(day, 0, releases.len() as u16, releases, deadlines, starts);
    Ok((cost, held))
}

impl FieldDay {
    // The day a slot later.
    fn advanced(&self) -> Result<(u16, FieldDay), Refusal>
        ensures { AdvancePromise self.now (came self.now result) }
    {
        self.judge()?;
        if self.slot == self.day.slots {
            return Err(Refusal::DayOver);
        }
        Ok((0, self.held_at(self.slot + 1, &self.starts)))
    }

    // The new plan's cost, and the day with the new row and that plan.
    fn added(&self, job: Job, table: &mut [u16]) -> Result<(u16, FieldDay), Refusal>
        ensures { AddPromise self.now job.release job.deadline table.old (came self.now result) table.new }
    {
        self.check_add(job, table.len())?;
        let (cost, starts) = self.replan(job, table)?;
        Ok((cost, self.with_row(job, &starts)))
    }

    // 1 and the day with the plan offered, or 0 and the day with its own.
    fn offered(&self, server: &[u16]) -> Result<(u16, FieldDay), Refusal>
        ensures { OfferPromise self.now server.now (came self.now result) }
    {
        let own = self.judge()?;
        let offered = self.price_cut(server)?;
        if offered < own {
            return Ok((1, self.held_at(self.slot, server)));
        }
        Ok((0, self.held_at(self.slot, &self.starts)))
    }
}

// Opens a day at slot 0 with a list and a proper plan for it. On 0 the first number is the plan's cost; a day of zeros where it refuses.
pub fn open(day: Day, releases: &[u16], deadlines: &[u16], starts: &[u16]) -> FieldAnswer
    ensures { OpenPromise day releases.now deadlines.now starts.now result }
{
    FieldAnswer::of(FieldDay::none(), opened(day, releases, deadlines, starts))
}

// Goes on by a slot: the job in it is done.
pub fn advance(field: FieldDay) -> FieldAnswer
    ensures { AdvancePromise field result }
{
    FieldAnswer::of(field, field.advanced())
}

// Adds a job as the last row and plans anew what the hour leaves open. On 0 the first number is the new plan's cost. On 0 and 7 the table's needed
// places are zero.
pub fn add(field: FieldDay, release: u16, deadline: u16, table: &mut [u16]) -> FieldAnswer
    ensures { AddPromise field release deadline table.old result table.new }
{
    FieldAnswer::of(field, field.added(Job { release, deadline }, table))
}

// Offers a server's plan. It replaces the plan held if it is proper for the cut list and strictly cheaper: the first number is then 1, else 0.
pub fn offer(field: FieldDay, server: &[u16]) -> FieldAnswer
    ensures { OfferPromise field server.now result }
{
    FieldAnswer::of(field, field.offered(server))
}
