// Why a list has no plan: a crowded span, slots in which more jobs have their whole window than there are slots.
#![tactic(auto)]

ghost use Rattle.std.specs.Prelude.{◌≤◌, length};
ghost use Rattle.day.specs.Windows.{windows};
ghost use Rattle.checks.specs.Check.{most_jobs, most_slots, GoodRows};
ghost use Rattle.crowd.specs.Crowded.{Crowded};
ghost use Rattle.crowd.specs.Promise.{answered_span, CrowdPromise};
ghost use Rattle.crowd.specs.steps.Ends.{Ends};
ghost use Rattle.crowd.specs.steps.Search.{CrowdedFrom, ShortestIn};

use checks::outcome::Refusal;
use checks::{Answer, check_times};

// The slots `begin` to `end` - 1, and how many jobs have their whole window there.
#[repr(C)]
#[derive(Clone, Copy, PartialEq, Eq)]
pub struct CrowdedSpan {
    pub begin: u16,
    pub end: u16,
    pub jobs: u16,
}

// The answer to the question why there is no plan, as C's record has it; the span is all zeros where there is one, and under any other refusal.
#[repr(C)]
#[derive(Clone, Copy, PartialEq, Eq)]
pub struct CrowdAnswer {
    pub answer: Answer,
    pub span: CrowdedSpan,
}

impl From<Result<CrowdedSpan, Refusal>> for CrowdAnswer {
    ghost use Rattle.std.specs.Prelude.{◌≡◌};
    ghost use Rattle.crowd.specs.Promise.{answered_span};

    ghost from_gives = { λ outcome answer. answer ≡ answered_span outcome };

    fn from(outcome: Result<CrowdedSpan, Refusal>) -> CrowdAnswer {
        match outcome {
            Ok(span) => CrowdAnswer {
                answer: Answer::done(0),
                span,
            },
            Err(refusal) => CrowdAnswer {
                answer: Answer::from(refusal),
                span: CrowdedSpan {
                    begin: 0,
                    end: 0,
                    jobs: 0,
                },
            },
        }
    }
}

// Shows the shortest crowded span, among those the earliest. It refuses a list that has a plan.
pub fn crowded_span(slots: u16, releases: &[u16], deadlines: &[u16]) -> Result<CrowdedSpan, Refusal>
    ensures { CrowdPromise slots (windows releases.now deadlines.now) (answered_span result) }
{
    check_times(slots, releases, deadlines)?;
    let rows = Rows {
        releases,
        deadlines,
    };
    rows.shortest(usize::from(slots)).ok_or(Refusal::PlanExists)
}

// The rows of a list, none of which is bad on the longest day.
#[derive(Clone, Copy)]
struct Rows<'a> {
    releases: &'a [u16],
    deadlines: &'a [u16],
    ghost good: { GoodRows most_jobs most_slots (windows releases.now deadlines.now) },
}

impl Rows<'_> {
    // The shortest crowded span, among those the earliest.
    fn shortest(&self, slots: usize) -> Option<CrowdedSpan>
        requires { slots ≤ most_slots }
        ensures { ShortestIn (Crowded slots (windows self.now.releases.now self.now.deadlines.now)) result }
    {
        let mut shown = None;
        // a later span is of interest if it is shorter than the one shown: if it has at most this many slots
        let mut reach = slots;
        for begin in 0..slots {
            let last = (begin + reach).min(slots);
            if let Some(found) = self.crowded_from(begin, last) {
                reach = usize::from(found.end) - begin - 1;
                shown = Some(found);
            }
        }
        shown
    }

    // Of the crowded spans from `begin` on that end by `last`, the shortest.
    fn crowded_from(&self, begin: usize, last: usize) -> Option<CrowdedSpan>
        requires { last ≤ most_slots }
        ensures { ShortestIn (CrowdedFrom last (windows self.now.releases.now self.now.deadlines.now) begin) result }
    {
        let ends = self.ends_from(begin);
        let mut jobs = 0;
        for reached in begin..last {
            let end = reached + 1;
            jobs += ends[end];
            if usize::from(jobs) > end - begin {
                return Some(CrowdedSpan {
                    begin: begin as u16,
                    end: end as u16,
                    jobs,
                });
            }
        }
        None
    }

    // How many of the jobs that are released at `begin` or later have each deadline.
    fn ends_from(&self, begin: usize) -> [u16; 97]
        ensures { Ends (windows self.now.releases.now self.now.deadlines.now) begin (length self.now.releases.now) result }
    {
        let mut ends = [0; 97];
        for (row, release) in self.releases.iter().enumerate() {
            let end = usize::from(self.deadlines[row]);
            if usize::from(*release) >= begin {
                ends[end] += 1;
            }
        }
        ends
    }
}
