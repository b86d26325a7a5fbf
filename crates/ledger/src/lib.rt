// The slot ledger: what fills each slot of a day, by a claimed plan. Releases and deadlines are two lists of numbers,
// as 01's number form has them and the public promises speak of them.
#![tactic(auto)]

mod walk;

ghost use Rattle.std.specs.Prelude.{◌≡◌};
ghost use Rattle.day.specs.Windows.{windows};
ghost use Rattle.ledger.specs.Promise.{ledger_answer, slot_answer, LedgerPromise, SlotPromise};

use checks::Answer;
use checks::outcome::Refusal;
use day::Day;

// What fills a slot: the job of a row, counted from 1; the machine before the first job, awake or asleep in a gap, or after the last job.
#[derive(Clone, Copy, PartialEq, Eq)]
pub enum Fill {
    Job(u16),
    Before,
    Awake,
    Asleep,
    After,
}

// A slot and what fills it.
#[derive(Clone, Copy, PartialEq, Eq)]
pub struct SlotFill {
    pub slot: u16,
    pub fill: Fill,
}

// The answer to the question what fills a slot: SlotPromise speaks of the record that is shown under a refusal too.
#[derive(Clone, Copy, PartialEq, Eq)]
pub struct SlotAnswer {
    pub answer: Answer,
    pub held: SlotFill,
}

// How many slots of the day are filled by each.
#[repr(C)]
#[derive(Clone, Copy, Default, PartialEq, Eq)]
pub struct Counts {
    pub before: u16,
    pub job: u16,
    pub awake: u16,
    pub asleep: u16,
    pub after: u16,
}

// The answer of the ledger, as C's record has it.
#[repr(C)]
#[derive(Clone, Copy, PartialEq, Eq)]
pub struct LedgerAnswer {
    pub answer: Answer,
    pub counts: Counts,
}

// Under a refusal every count is 0.
impl From<Result<Counts, Refusal>> for LedgerAnswer {
    ghost from_gives = { λ outcome answer. answer ≡ ledger_answer outcome };

    fn from(outcome: Result<Counts, Refusal>) -> LedgerAnswer {
        match outcome {
            Ok(counts) => LedgerAnswer {
                answer: Answer::done(0),
                counts,
            },
            Err(refusal) => LedgerAnswer {
                answer: Answer::from(refusal),
                counts: Counts::default(),
            },
        }
    }
}

// A refused slot record has slot 0, filled by Before.
impl From<Result<SlotFill, Refusal>> for SlotAnswer {
    ghost from_gives = { λ outcome answer. answer ≡ slot_answer outcome };

    fn from(outcome: Result<SlotFill, Refusal>) -> SlotAnswer {
        match outcome {
            Ok(held) => SlotAnswer {
                answer: Answer::done(0),
                held,
            },
            Err(refusal) => SlotAnswer {
                answer: Answer::from(refusal),
                held: SlotFill {
                    slot: 0,
                    fill: Fill::Before,
                },
            },
        }
    }
}

// Counts the slots of a claimed plan by what fills them.
pub fn ledger(
    day: Day,
    releases: &[u16],
    deadlines: &[u16],
    starts: &[u16],
) -> Result<Counts, Refusal>
    ensures { LedgerPromise day (windows releases.now deadlines.now) starts.now (ledger_answer result) }
{
    let rows = claim::judge(day, releases, deadlines, starts)?;
    let slots = usize::from(day.slots);
    Ok(walk::count(day.power, &rows[..slots]))
}

// What fills one slot of a claimed plan.
pub fn slot(
    day: Day,
    releases: &[u16],
    deadlines: &[u16],
    starts: &[u16],
    slot: u16,
) -> Result<SlotFill, Refusal>
    ensures { SlotPromise day (windows releases.now deadlines.now) starts.now slot (slot_answer result) }
{
    let rows = claim::judge(day, releases, deadlines, starts)?;
    if slot >= day.slots {
        return Err(Refusal::NoSuchSlot);
    }
    let slots = usize::from(day.slots);
    let fill = walk::fill_at(day.power, &rows[..slots], usize::from(slot));
    Ok(SlotFill { slot, fill })
}
