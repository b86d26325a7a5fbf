// The slow twin of a field day, which knows what is done from its log alone.
use crate::state::State;
use checks::outcome::Refusal;
use day::{Day, Job};

// A call: a day opens with the starts that are given, goes on by a slot, has a job more, or is offered starts.
#[derive(Clone, Copy)]
pub enum Call<'a> {
    Open(&'a [u16]),
    Advance,
    Add(Job),
    Offer(&'a [u16]),
}

impl State {
    // The state after a call. A call that is refused leaves the day as it was, and none where it is to open.
    pub(crate) fn told(&self, call: Call<'_>) -> State {
        let next = match call {
            Call::Open(starts) => self.opened(starts),
            Call::Advance => self.advanced(),
            Call::Add(job) => self.added(job),
            Call::Offer(starts) => self.offered(starts),
        };
        next.unwrap_or_else(|refusal| {
            let left = match call {
                Call::Open(_) => State::none(),
                _ => *self,
            };
            State {
                outcome: Err(refusal),
                ..left
            }
        })
    }

    // What pricing answers for starts.
    fn priced(&self, starts: &[u16]) -> Result<u16, Refusal> {
        claim::price(self.day, self.releases(), self.deadlines(), starts)
    }

    // Judges list and plan, then the slot.
    fn judged(&self) -> Result<u16, Refusal> {
        let cost = self.priced(self.starts())?;
        if self.slot > self.day.slots {
            return Err(Refusal::DayOver);
        }
        Ok(cost)
    }

    fn opened(&self, starts: &[u16]) -> Result<State, Refusal> {
        let cost = self.priced(starts)?;
        Ok(State {
            outcome: Ok(cost),
            ..*self
        })
    }

    // A slot later: the job that starts in the slot is in the log.
    fn advanced(&self) -> Result<State, Refusal> {
        self.judged()?;
        if self.slot >= self.day.slots {
            return Err(Refusal::DayOver);
        }
        let row = (1..=self.count)
            .zip(self.starts())
            .find_map(|(row, start)| (*start == self.slot).then_some(row));
        let mut next = *self;
        if let Some(done) = next.log.get_mut(usize::from(self.slot)) {
            *done = row;
        }
        next.outcome = Ok(0);
        next.slot = self.slot + 1;
        Ok(next)
    }

    // A row more, and the best plan for what is left with it.
    fn added(&self, job: Job) -> Result<State, Refusal> {
        self.judged()?;
        let longer = self.with_row(job);
        // Starts at the releases are within the windows but may clash, so that only a refusal of the list counts.
        if let Err(refusal) = longer.priced(longer.releases())
            && matches!(refusal, Refusal::TooManyJobs | Refusal::BadRow(_))
        {
            return Err(refusal);
        }
        if self.places(job) < self.needed() {
            return Err(Refusal::ShortTable);
        }
        let plan = longer.best().ok_or(Refusal::NoPlan)?;
        Ok(longer.with_plan(plan.cost, &plan.starts))
    }

    // A new row last, as yet without a start.
    fn with_row(&self, job: Job) -> State {
        let mut longer = *self;
        let row = usize::from(self.count);
        if row < 41 {
            longer.releases[row] = job.release;
            longer.deadlines[row] = job.deadline;
            longer.count = self.count + 1;
        }
        longer
    }

    // How many places of the table a row more needs.
    pub(crate) fn needed(&self) -> usize {
        let Day { slots, .. } = self.day;
        let count = self.count;
        let width = usize::from(slots) + 3;
        (usize::from(count) + 2) * width * width
    }

    // How many places the table is lent with: one too few for a job that is released at 1, else one too many.
    pub(crate) fn places(&self, job: Job) -> usize {
        if job.release == 1 {
            self.needed().wrapping_sub(1)
        } else {
            self.needed().wrapping_add(1)
        }
    }

    fn with_plan(&self, first: u16, starts: &[u16]) -> State {
        let rows = starts.iter().take(usize::from(self.count));
        let mut next = *self;
        next.outcome = Ok(first);
        for (place, start) in next.starts.iter_mut().zip(rows) {
            *place = *start;
        }
        next
    }

    // Takes an offer that is proper for what is left and costs less than this.
    fn offered(&self, starts: &[u16]) -> Result<State, Refusal> {
        let cost = self.judged()?;
        if self.left(starts)? < cost {
            return Ok(self.with_plan(1, starts));
        }
        Ok(State {
            outcome: Ok(0),
            ..*self
        })
    }

    // What pricing answers for what is left: a row is outside its window also where it isn't where the log leaves it.
    pub(crate) fn left(&self, starts: &[u16]) -> Result<u16, Refusal> {
        let priced = self.priced(starts);
        match (priced, self.first_undone(starts)) {
            (_, None) | (Err(Refusal::FewStarts), _) => priced,
            (Err(Refusal::OutsideWindow(first)), Some(row)) if first < row => priced,
            (_, Some(row)) => Err(Refusal::OutsideWindow(row)),
        }
    }

    // Whether the log has each row at most once, and exactly once where a call that is not refused gives back a day that has ended.
    pub(crate) fn is_done_once(&self) -> bool {
        let open = self.outcome.is_err() || self.slot != self.day.slots;
        (1..=self.count).all(|row| {
            let times = self.log.iter().filter(|done| **done == Some(row)).count();
            times == 1 || times == 0 && open
        })
    }
}
