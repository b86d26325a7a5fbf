// The cut list: what the hour leaves of the list held, planned with a new row and priced with an offered plan.
ghost use Rattle.std.specs.Prelude.{List, ℕ, ◌≡◌, ◌+◌, ◌≤◌, length};
ghost use Rattle.checks.specs.Answer.{answered, checked};
ghost use Rattle.checks.specs.Check.{most_jobs};
ghost use Rattle.checks.specs.Refusal.{◌then◌, Passed};
ghost use Rattle.checks.specs.Planned.{Planned};
ghost use Rattle.checks.specs.steps.Never.{Never};
ghost use Rattle.claim.specs.Claim.{StartsCheck, Costs};
ghost use Rattle.planner.specs.Table.{need};
ghost use Rattle.cutlist.specs.CutRows.{HoldsCut};
ghost use Rattle.fieldday.specs.Held.{cut_held, cut_with};
ghost use Rattle.fieldday.specs.steps.Sound.{Sound};
ghost use Rattle.fieldday.specs.Promise.{AddCheck};
ghost use Rattle.fieldday.specs.steps.NewRow.{NewRowCheck, NewRowFits};
ghost use Rattle.fieldday.specs.steps.Replanned.{replanned, starts_after};

use crate::FieldDay;
use checks::MOST_JOBS;
use checks::outcome::Refusal;
use cutlist::CutRows;
use day::Job;

// Codes 3, 4 and 6 for a new row after `count` good rows, and a table of so many places.
fn check_new(slots: u16, count: u16, job: Job, places: usize) -> Result<(), Refusal>
    ensures { (NewRowCheck slots count job.release job.deadline places then Passed) (checked result) }
{
    if count >= MOST_JOBS {
        return Err(Refusal::TooManyJobs);
    }
    if job.release >= job.deadline || job.deadline > slots {
        return Err(Refusal::BadRow(count + 1));
    }
    if places < planner::places_needed(slots, count + 1) {
        return Err(Refusal::ShortTable);
    }
    Ok(())
}

impl FieldDay {
    // The windows of the cut list of the list held.
    fn cut_held(&self) -> CutRows
        requires { self.now.count ≤ most_jobs }
        ensures { HoldsCut self.now.slot self.now.count self.now.releases self.now.deadlines self.now.starts result }
    {
        cutlist::cut_rows(
            self.slot,
            usize::from(self.count),
            &self.releases,
            &self.deadlines,
            &self.starts,
        )
    }

    // Prices a plan for the cut list.
    pub(crate) fn price_cut(&self, server: &[u16]) -> Result<u16, Refusal>
        requires { Sound self.now }
        ensures { (StartsCheck (cut_held self.now) server.now then Costs self.now.day (cut_held self.now) server.now) (answered result) }
    {
        let count = usize::from(self.count);
        let cut = self.cut_held();
        claim::price(
            self.day,
            &cut.releases[..count],
            &cut.deadlines[..count],
            server,
        )
    }

    // Everything that adding refuses, but for 7.
    pub(crate) fn check_add(&self, job: Job, places: usize) -> Result<(), Refusal>
        ensures { (table : List ℕ) → length table ≡ places → (AddCheck self.now job.release job.deadline table then Passed) (checked result) }
    {
        self.judge()?;
        check_new(self.day.slots, self.count, job, places)
    }

    // Plans the cut list with a new row last: the cost and the starts. A raised window without a slot leaves no plan.
    pub(crate) fn replan(&self, job: Job, table: &mut [u16]) -> Result<(u16, [u16; 40]), Refusal>
        requires sound { Sound self.now }
        requires new_row_fits { NewRowFits self.now job.release job.deadline table.old }
        ensures { Planned Never (need self.now.day.slots (self.now.count + 1)) self.now.day (cut_with self.now job.release job.deadline) self.now.starts table.old (replanned result) (starts_after self.now.starts result) table.new }
    {
        if job.deadline <= self.slot {
            let needed = planner::places_needed(self.day.slots, self.count + 1);
            checks::zero_first(table, needed);
            return Err(Refusal::NoPlan);
        }
        let last = usize::from(self.count);
        let mut cut = self.cut_held();
        cut.releases[last] = cutlist::raise(self.slot, job.release);
        cut.deadlines[last] = job.deadline;
        let mut starts = self.starts;
        let end = last + 1;
        let cost = planner::plan(
            self.day,
            &cut.releases[..end],
            &cut.deadlines[..end],
            &mut starts,
            table,
        )?;
        Ok((cost, starts))
    }
}
