// Each entry point over a lent list of job records. What C can take of them is exported by the crate `chaskuri_c`.
#![tactic(auto)]

pub mod numbers;

ghost use Rattle.checks.specs.Answer.{checked};
ghost use Rattle.checks.specs.Refusal.{◌then◌, Passed};
ghost use Rattle.checks.specs.Check.{TimesCheck};
ghost use Rattle.claim.specs.Claim.{PricePromise};
ghost use Rattle.choice.specs.Choice.{ChoicePromise, PartPromise};
ghost use Rattle.crowd.specs.Promise.{CrowdPromise};
ghost use Rattle.dayfile.specs.Reader.{as_reading, ReadPromise};
ghost use Rattle.fieldday.specs.Promise.{OpenPromise, AdvancePromise, AddPromise, OfferPromise};
ghost use Rattle.filewriter.specs.Writer.{WritePromise};
ghost use Rattle.ledger.specs.Promise.{LedgerPromise, SlotPromise};
ghost use Rattle.planner.specs.Promise.{PlanPromise};
ghost use Rattle.moving.specs.Moving.{MovePromise};
ghost use Rattle.chaskuri.specs.Slot.{SlotNumbered};
ghost use Rattle.rows.specs.Columns.{releases, deadlines, windows_of};

use crate::numbers::SlotNumbers;
use checks::Answer;
use checks::outcome::Refusal;
use crowd::CrowdAnswer;
use day::{Day, Job};
use dayfile::{Header, Reading};
use fieldday::{FieldAnswer, FieldDay};
use ledger::{LedgerAnswer, SlotAnswer};
use rows::Rows;

// Judges a day's length and the list: what a caller asks before it keeps a list. A wake cost is not asked for.
pub fn chaskuri_check(slots: u16, jobs: &[Job]) -> Answer
    ensures { (TimesCheck slots (windows_of jobs.now) then Passed) result }
{
    let rows = rows::copy_out(jobs, 0);
    Answer::from(checks::check_times(slots, rows.releases(), rows.deadlines()))
}

// Plans the list at least cost. On code 0 the first number is the cost and the first starts are the best plan's, in row order; on 7 there
// is no proper plan. The needed places of the table are zero then. Under any other code nothing changes.
pub fn chaskuri_plan(day: Day, jobs: &[Job], starts: &mut [u16], table: &mut [u16]) -> Answer
    ensures { PlanPromise day (windows_of jobs.now) starts.old table.old result starts.new table.new }
{
    let rows = rows::copy_out(jobs, 0);
    Answer::from(planner::plan(day, rows.releases(), rows.deadlines(), starts, table))
}

// Why there is no proper plan: the shortest crowded span, among those the earliest. A wake cost is not asked for. The span is all zeros where it refuses.
pub fn chaskuri_crowded_span(slots: u16, jobs: &[Job]) -> CrowdAnswer
    ensures { CrowdPromise slots (windows_of jobs.now) result }
{
    let rows = rows::copy_out(jobs, 0);
    CrowdAnswer::from(crowd::crowded_span(slots, rows.releases(), rows.deadlines()))
}

// Prices a claimed plan.
pub fn chaskuri_price(day: Day, jobs: &[Job], starts: &[u16]) -> Answer
    ensures { PricePromise day (windows_of jobs.now) starts.now result }
{
    let rows = rows::copy_out(jobs, 0);
    Answer::from(claim::price(day, rows.releases(), rows.deadlines(), starts))
}

// Which of two claimed plans for one list wins: as first number 1, the notebook's own, or 2, the server's.
pub fn chaskuri_which(day: Day, jobs: &[Job], own: &[u16], server: &[u16]) -> Answer
    ensures { ChoicePromise day (windows_of jobs.now) own.now server.now result }
{
    let rows = rows::copy_out(jobs, 0);
    let winner = choice::which(day, rows.releases(), rows.deadlines(), own, server);
    Answer::from(winner.map(u16::from))
}

// The winner's first starts, one for each job, as a part of the plan that was lent; under a refusal the empty start of the notebook's own.
// C takes no reference as a result: it asks `chaskuri_which`.
pub fn choose<'j, 'a>(day: Day, jobs: &'j [Job], own: &'a [u16], server: &'a [u16]) -> &'a [u16]
    ensures { PartPromise day (windows_of jobs.now) own.entry server.entry result }
{
    let rows = rows::copy_out(jobs, 0);
    choice::choose(day, rows.releases(), rows.deadlines(), own, server)
}

// Counts the slots of a claimed plan by what fills them.
pub fn chaskuri_ledger(day: Day, jobs: &[Job], starts: &[u16]) -> LedgerAnswer
    ensures { LedgerPromise day (windows_of jobs.now) starts.now result }
{
    let rows = rows::copy_out(jobs, 0);
    LedgerAnswer::from(ledger::ledger(day, rows.releases(), rows.deadlines(), starts))
}

// What fills one slot of a claimed plan. C takes no enum: it asks `chaskuri_slot`.
pub fn slot(day: Day, jobs: &[Job], starts: &[u16], asked: u16) -> SlotAnswer
    ensures { SlotPromise day (windows_of jobs.now) starts.now asked result }
{
    let rows = rows::copy_out(jobs, 0);
    SlotAnswer::from(ledger::slot(day, rows.releases(), rows.deadlines(), starts, asked))
}

// What fills one slot of a claimed plan, in numbers.
pub fn chaskuri_slot(day: Day, jobs: &[Job], starts: &[u16], asked: u16) -> SlotNumbers
    ensures { SlotNumbered day (windows_of jobs.now) starts.now asked result }
{
    SlotNumbers::from(slot(day, jobs, starts, asked))
}

// The rows of a list, moved in a copy and put back.
fn move_rows(slots: u16, jobs: &mut [Job], by: i16) -> Result<(), Refusal>
    ensures { MovePromise slots by (releases jobs.old) (deadlines jobs.old) (checked result) (releases jobs.new) (deadlines jobs.new) }
{
    let Rows {
        count,
        mut releases,
        mut deadlines,
    } = rows::copy_out(jobs, 0);
    moving::move_list(slots, by, &mut releases[..count], &mut deadlines[..count])?;
    rows::put_back(
        jobs,
        Rows {
            count,
            releases,
            deadlines,
        },
    );
    Ok(())
}

// Moves every row by `by` slots, in the caller's own list; a positive number is later. Where it refuses, the list is not touched.
pub fn chaskuri_move(slots: u16, jobs: &mut [Job], by: i16) -> Answer
    ensures { MovePromise slots by (releases jobs.old) (deadlines jobs.old) result (releases jobs.new) (deadlines jobs.new) }
{
    Answer::from(move_rows(slots, jobs, by))
}

// The rows of a file, read into as many places as both the list and a copy have, and put over the list.
fn read_rows(file: &[u8], jobs: &mut [Job]) -> Result<Header, Refusal>
    ensures { ReadPromise file.now (releases jobs.old) (deadlines jobs.old) (as_reading result) (releases jobs.new) (deadlines jobs.new) }
{
    let mut releases = [0u16; 41];
    let mut deadlines = [0u16; 41];
    let places = rows::rows_put(jobs.len(), 41);
    let header = dayfile::read(file, &mut releases[..places], &mut deadlines[..places])?;
    let count = usize::from(header.count);
    rows::put_back(
        jobs,
        Rows {
            count,
            releases,
            deadlines,
        },
    );
    Ok(header)
}

// Reads the rows of a day file into the first records of the lent list. Where it refuses, the list is not touched.
pub fn chaskuri_read(file: &[u8], jobs: &mut [Job]) -> Reading
    ensures { ReadPromise file.now (releases jobs.old) (deadlines jobs.old) result (releases jobs.new) (deadlines jobs.new) }
{
    Reading::from(read_rows(file, jobs))
}

// Writes the list and a trailer after the first `notes` bytes of `file`. Where it refuses, no byte is touched.
pub fn chaskuri_write(day: Day, jobs: &[Job], notes: usize, file: &mut [u8]) -> Answer
    ensures { WritePromise notes day (releases jobs.now) (deadlines jobs.now) file.old result file.new }
{
    let rows = rows::copy_out(jobs, 0);
    Answer::from(filewriter::write(notes, day, rows.releases(), rows.deadlines(), file))
}

// Opens a day in the field at slot 0 with the list and a proper plan for it. On 0 the first number is the plan's cost; a day of zeros where it refuses.
pub fn chaskuri_open(day: Day, jobs: &[Job], starts: &[u16]) -> FieldAnswer
    ensures { OpenPromise day (releases jobs.now) (deadlines jobs.now) starts.now result }
{
    let rows = rows::copy_out(jobs, 0);
    fieldday::open(day, rows.releases(), rows.deadlines(), starts)
}

// Goes on by a slot: the job in it is done. Where it refuses, the day comes back as it was given.
pub fn chaskuri_advance(field: FieldDay) -> FieldAnswer
    ensures { AdvancePromise field result }
{
    fieldday::advance(field)
}

// Adds a job as the last row and plans anew what the hour leaves open. On 0 the first number is the new plan's cost. On 0 and 7 the table's needed
// places are zero. Where it refuses, the day comes back as it was given.
pub fn chaskuri_add(field: FieldDay, job: Job, table: &mut [u16]) -> FieldAnswer
    ensures { AddPromise field job.release job.deadline table.old result table.new }
{
    fieldday::add(field, job.release, job.deadline, table)
}

// Offers a server's plan. It replaces the plan held if it is proper for the cut list and strictly cheaper: the first number is then 1, else 0. Where it
// refuses, the day comes back as it was given.
pub fn chaskuri_offer(field: FieldDay, server: &[u16]) -> FieldAnswer
    ensures { OfferPromise field server.now result }
{
    fieldday::offer(field, server)
}
