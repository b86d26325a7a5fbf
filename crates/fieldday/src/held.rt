// The day held: how one is made, and how it is judged.
ghost use Rattle.std.specs.Prelude.{◌≡◌, [], ◌∷◌, ◌++◌, ◌+◌, ◌<◌, ◌≤◌, length, take};
ghost use Rattle.checks.specs.Answer.{answered};
ghost use Rattle.checks.specs.Check.{most_jobs};
ghost use Rattle.checks.specs.Refusal.{◌then◌};
ghost use Rattle.claim.specs.Claim.{PricePromise, Costs};
ghost use Rattle.fieldday.specs.Held.{list_held, HeldCheck, with_zeros, day_of, held_at, no_day};

use crate::FieldDay;
use checks::MOST_JOBS;
use checks::outcome::Refusal;
use day::{Day, Job, Power};

// The first `count` numbers of a list, and zeros in the places that are left.
fn with_zeros(numbers: &[u16], count: usize) -> [u16; 40]
    requires { (count ≤ most_jobs) × (count ≤ length numbers.now) }
    ensures { result ≡ with_zeros count numbers.now }
{
    let mut places = [0u16; 40];
    places[..count].copy_from_slice(&numbers[..count]);
    places
}

impl FieldDay {
    // A day of `count` rows.
    pub(crate) fn of_rows(
        day: Day,
        slot: u16,
        count: u16,
        releases: &[u16],
        deadlines: &[u16],
        starts: &[u16],
    ) -> FieldDay
        requires { (count ≤ most_jobs) × (count ≤ length releases.now) × (count ≤ length deadlines.now) × (count ≤ length starts.now) }
        ensures { result ≡ day_of day slot count releases.now deadlines.now starts.now }
    {
        let rows = usize::from(count);
        FieldDay {
            day,
            slot,
            count,
            releases: with_zeros(releases, rows),
            deadlines: with_zeros(deadlines, rows),
            starts: with_zeros(starts, rows),
        }
    }

    // A day of all zeros.
    pub(crate) fn none() -> FieldDay
        ensures { result ≡ no_day }
    {
        FieldDay {
            day: Day {
                slots: 0,
                power: Power { wake: 0 },
            },
            slot: 0,
            count: 0,
            releases: [0; 40],
            deadlines: [0; 40],
            starts: [0; 40],
        }
    }

    // The list held, at a slot and with a plan.
    pub(crate) fn held_at(&self, slot: u16, starts: &[u16]) -> FieldDay
        requires { (self.now.count ≤ most_jobs) × (self.now.count ≤ length starts.now) }
        ensures { result ≡ held_at self.now slot starts.now }
    {
        FieldDay::of_rows(
            self.day,
            slot,
            self.count,
            &self.releases,
            &self.deadlines,
            starts,
        )
    }

    // The day with a new row, as it is given, and a plan.
    pub(crate) fn with_row(&self, job: Job, starts: &[u16]) -> FieldDay
        requires { (self.now.count < most_jobs) × (self.now.count < length starts.now) }
        ensures { result ≡ day_of self.now.day self.now.slot (self.now.count + 1) (take self.now.count self.now.releases ++ job.release ∷ []) (take self.now.count self.now.deadlines ++ job.deadline ∷ []) starts.now }
    {
        let last = usize::from(self.count);
        let mut releases = self.releases;
        let mut deadlines = self.deadlines;
        releases[last] = job.release;
        deadlines[last] = job.deadline;
        FieldDay::of_rows(
            self.day,
            self.slot,
            self.count + 1,
            &releases,
            &deadlines,
            starts,
        )
    }

    // Prices the plan held for the list held. More rows than there are places for are refused whatever they would hold.
    fn price_held(&self) -> Result<u16, Refusal>
        ensures { PricePromise self.now.day (list_held self.now) self.now.starts (answered result) }
    {
        if self.count > MOST_JOBS {
            let many = [0u16; 41];
            return claim::price(self.day, &many, &many, &self.starts);
        }
        let count = usize::from(self.count);
        claim::price(
            self.day,
            &self.releases[..count],
            &self.deadlines[..count],
            &self.starts,
        )
    }

    // Judges the day as opening does, then its slot: what the plan held costs.
    pub(crate) fn judge(&self) -> Result<u16, Refusal>
        ensures { (HeldCheck self.now then Costs self.now.day (list_held self.now) self.now.starts) (answered result) }
    {
        let cost = self.price_held()?;
        if self.slot > self.day.slots {
            return Err(Refusal::DayOver);
        }
        Ok(cost)
    }
}
