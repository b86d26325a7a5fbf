// The door for the notebook's firmware: what C can call, each call a function of `chaskuri` with the same promise: an export
// stands in a static library, and Rattle calls the other. C's header is include/chaskuri.h.
#![tactic(auto)]

ghost use Rattle.checks.specs.Refusal.{◌then◌, Passed};
ghost use Rattle.checks.specs.Check.{TimesCheck};
ghost use Rattle.claim.specs.Claim.{PricePromise};
ghost use Rattle.choice.specs.Choice.{ChoicePromise};
ghost use Rattle.crowd.specs.Promise.{CrowdPromise};
ghost use Rattle.dayfile.specs.Reader.{ReadPromise};
ghost use Rattle.fieldday.specs.Promise.{OpenPromise, AdvancePromise, AddPromise, OfferPromise};
ghost use Rattle.filewriter.specs.Writer.{WritePromise};
ghost use Rattle.ledger.specs.Promise.{LedgerPromise};
ghost use Rattle.planner.specs.Promise.{PlanPromise};
ghost use Rattle.moving.specs.Moving.{MovePromise};
ghost use Rattle.chaskuri.specs.Slot.{SlotNumbered};
ghost use Rattle.rows.specs.Columns.{releases, deadlines, windows_of};

use chaskuri::numbers::SlotNumbers;
use checks::Answer;
use crowd::CrowdAnswer;
use day::{Day, Job};
use dayfile::Reading;
use fieldday::{FieldAnswer, FieldDay};
use ledger::LedgerAnswer;

// Judges a day's length and the list.
#[unsafe(no_mangle)]
pub extern "C" fn chaskuri_check(slots: u16, jobs: &[Job]) -> Answer
    ensures { (TimesCheck slots (windows_of jobs.now) then Passed) result }
{
    chaskuri::chaskuri_check(slots, jobs)
}

// Plans the list at least cost.
#[unsafe(no_mangle)]
pub extern "C" fn chaskuri_plan(
    day: Day,
    jobs: &[Job],
    starts: &mut [u16],
    table: &mut [u16],
) -> Answer
    ensures { PlanPromise day (windows_of jobs.now) starts.old table.old result starts.new table.new }
{
    chaskuri::chaskuri_plan(day, jobs, starts, table)
}

// Why there is no proper plan.
#[unsafe(no_mangle)]
pub extern "C" fn chaskuri_crowded_span(slots: u16, jobs: &[Job]) -> CrowdAnswer
    ensures { CrowdPromise slots (windows_of jobs.now) result }
{
    chaskuri::chaskuri_crowded_span(slots, jobs)
}

// Prices a claimed plan.
#[unsafe(no_mangle)]
pub extern "C" fn chaskuri_price(day: Day, jobs: &[Job], starts: &[u16]) -> Answer
    ensures { PricePromise day (windows_of jobs.now) starts.now result }
{
    chaskuri::chaskuri_price(day, jobs, starts)
}

// Which of two claimed plans for one list wins.
#[unsafe(no_mangle)]
pub extern "C" fn chaskuri_which(day: Day, jobs: &[Job], own: &[u16], server: &[u16]) -> Answer
    ensures { ChoicePromise day (windows_of jobs.now) own.now server.now result }
{
    chaskuri::chaskuri_which(day, jobs, own, server)
}

// Counts the slots of a claimed plan by what fills them.
#[unsafe(no_mangle)]
pub extern "C" fn chaskuri_ledger(day: Day, jobs: &[Job], starts: &[u16]) -> LedgerAnswer
    ensures { LedgerPromise day (windows_of jobs.now) starts.now result }
{
    chaskuri::chaskuri_ledger(day, jobs, starts)
}

// What fills one slot of a claimed plan, in numbers.
#[unsafe(no_mangle)]
pub extern "C" fn chaskuri_slot(day: Day, jobs: &[Job], starts: &[u16], asked: u16) -> SlotNumbers
    ensures { SlotNumbered day (windows_of jobs.now) starts.now asked result }
{
    chaskuri::chaskuri_slot(day, jobs, starts, asked)
}

// Moves every row by `by` slots, in the caller's own list.
#[unsafe(no_mangle)]
pub extern "C" fn chaskuri_move(slots: u16, jobs: &mut [Job], by: i16) -> Answer
    ensures { MovePromise slots by (releases jobs.old) (deadlines jobs.old) result (releases jobs.new) (deadlines jobs.new) }
{
    chaskuri::chaskuri_move(slots, jobs, by)
}

// Reads the rows of a day file into the first records of the lent list.
#[unsafe(no_mangle)]
pub extern "C" fn chaskuri_read(file: &[u8], jobs: &mut [Job]) -> Reading
    ensures { ReadPromise file.now (releases jobs.old) (deadlines jobs.old) result (releases jobs.new) (deadlines jobs.new) }
{
    chaskuri::chaskuri_read(file, jobs)
}

// Writes the list and a trailer after the first `notes` bytes of `file`.
#[unsafe(no_mangle)]
pub extern "C" fn chaskuri_write(day: Day, jobs: &[Job], notes: usize, file: &mut [u8]) -> Answer
    ensures { WritePromise notes day (releases jobs.now) (deadlines jobs.now) file.old result file.new }
{
    chaskuri::chaskuri_write(day, jobs, notes, file)
}

// Opens a day in the field at slot 0 with the list and a proper plan for it.
#[unsafe(no_mangle)]
pub extern "C" fn chaskuri_open(day: Day, jobs: &[Job], starts: &[u16]) -> FieldAnswer
    ensures { OpenPromise day (releases jobs.now) (deadlines jobs.now) starts.now result }
{
    chaskuri::chaskuri_open(day, jobs, starts)
}

// Goes on by a slot.
#[unsafe(no_mangle)]
pub extern "C" fn chaskuri_advance(field: FieldDay) -> FieldAnswer
    ensures { AdvancePromise field result }
{
    chaskuri::chaskuri_advance(field)
}

// Adds a job as the last row and plans anew what the hour leaves open.
#[unsafe(no_mangle)]
pub extern "C" fn chaskuri_add(field: FieldDay, job: Job, table: &mut [u16]) -> FieldAnswer
    ensures { AddPromise field job.release job.deadline table.old result table.new }
{
    chaskuri::chaskuri_add(field, job, table)
}

// Offers a server's plan.
#[unsafe(no_mangle)]
pub extern "C" fn chaskuri_offer(field: FieldDay, server: &[u16]) -> FieldAnswer
    ensures { OfferPromise field server.now result }
{
    chaskuri::chaskuri_offer(field, server)
}
