// A day file's bytes to the text that the program prints; no system call.
#![tactic(auto)]

ghost use Rattle.day.specs.Windows.{windows};
ghost use Rattle.report.specs.File.{outcome, FilePromise, InputReported, ReportPromise};
ghost use Rattle.report.specs.steps.Rows.{RowsReported};

use checks::Answer;
use checks::outcome::Refusal;
use day::Day;
use ledger::Counts;
use text::Text;

// The program's input has at most this many bytes.
const MOST_BYTES: usize = 4096;

// What planning a file gives beside the starts: the plan's cost, the number of jobs, since the lent list of starts may be longer, and the ledger.
#[derive(Clone, Copy)]
pub struct FilePlan {
    pub cost: u16,
    pub count: u16,
    pub counts: Counts,
}

// The program's text for its input, a day file's bytes.
pub fn report(file: &[u8], table: &mut [u16]) -> Text
    ensures { ReportPromise file.now table.old result table.new }
{
    let mut starts = [0u16; 40];
    match plan_input(file, &mut starts, table) {
        Ok(plan) => text::render(Answer::done(plan.cost), plan.count, &starts, plan.counts),
        Err(refusal) => text::render(Answer::from(refusal), 0, &starts, Counts::default()),
    }
}

// Plans the program's input, where it is not too long.
fn plan_input(file: &[u8], starts: &mut [u16], table: &mut [u16]) -> Result<FilePlan, Refusal>
    ensures { InputReported file.now starts.old table.old (outcome result) starts.new table.new }
{
    if file.len() > MOST_BYTES {
        return Err(Refusal::LongInput);
    }
    plan_file(file, starts, table)
}

// Plans a day file. Its rows are planned as the planner plans a list, and the plan found is counted by slots.
pub fn plan_file(file: &[u8], starts: &mut [u16], table: &mut [u16]) -> Result<FilePlan, Refusal>
    ensures { FilePromise file.now starts.old table.old (outcome result) starts.new table.new }
{
    let mut releases = [0u16; 40];
    let mut deadlines = [0u16; 40];
    let header = dayfile::read(file, &mut releases, &mut deadlines)?;
    let count = usize::from(header.count);
    plan_rows(
        header.day,
        &releases[..count],
        &deadlines[..count],
        starts,
        table,
    )
}

// Plans rows, and counts the slots of the plan found. Releases and deadlines are two lists, as the planner takes them.
fn plan_rows(
    day: Day,
    releases: &[u16],
    deadlines: &[u16],
    starts: &mut [u16],
    table: &mut [u16],
) -> Result<FilePlan, Refusal>
    ensures { RowsReported day (windows releases.now deadlines.now) starts.old table.old (outcome result) starts.new table.new }
{
    let cost = planner::plan(day, releases, deadlines, starts, table)?;
    let counts = ledger::ledger(day, releases, deadlines, starts)?;
    Ok(FilePlan {
        cost,
        count: releases.len() as u16,
        counts,
    })
}
