// A field day as a story, printed: what the base offers, what comes in, and what is done, slot by slot.
use crate::state::State;
use crate::tally::Tally;
use crate::twin::Call;
use checks::Answer;
use day::{Day, Job, Power};
use std::fmt;

// The calls: the day opens; two slots; what is done stays, a plan as dear is not taken, a cheaper one is; a window has passed, one leaves the day,
// one is taken; three slots; an offer made for the list before, a late job, an offer that is too short, one with two jobs in a slot; seven slots;
// the day is over.
const CALLS: [Call<'static>; 25] = [
    Call::Open(&[1, 4, 10]),
    Call::Advance,
    Call::Advance,
    Call::Offer(&[0, 7, 9]),
    Call::Offer(&[1, 4, 9]),
    Call::Offer(&[1, 7, 9]),
    Call::Add(Job {
        release: 0,
        deadline: 2,
    }),
    Call::Add(Job {
        release: 10,
        deadline: 13,
    }),
    Call::Add(Job {
        release: 3,
        deadline: 6,
    }),
    Call::Advance,
    Call::Advance,
    Call::Advance,
    Call::Offer(&[1, 7, 9, 5]),
    Call::Add(Job {
        release: 4,
        deadline: 10,
    }),
    Call::Offer(&[1, 2, 10, 3]),
    Call::Offer(&[1, 2, 9, 3, 9]),
    Call::Advance,
    Call::Advance,
    Call::Advance,
    Call::Advance,
    Call::Advance,
    Call::Advance,
    Call::Advance,
    Call::Add(Job {
        release: 11,
        deadline: 12,
    }),
    Call::Advance,
];

pub(crate) fn run(rt: &impl Print, tally: &mut Tally) {
    let day = Day {
        slots: 12,
        power: Power { wake: 3 },
    };
    let mut state = State::listed(day, &[0, 2, 9], &[2, 8, 12], &[1, 4, 10]);
    for call in CALLS {
        let slot = state.slot;
        let next = state.after(call, tally);
        let told = Told { call, next };
        // A line that is lost shows in what the program wrote.
        let _ = println!(rt; "slot {slot}{call}{told}");
        state = next;
    }
}

impl fmt::Display for Call<'_> {
    fn fmt<W: fmt::Write>(&self, f: &mut fmt::Formatter<W>) -> fmt::Result {
        match *self {
            Call::Open(starts) => {
                let starts = Spaced(starts);
                write!(
                    f,
                    ": a day of 12 slots, 3 to wake, opens with jobs 0 2, 2 8, 9 12 and the plan{starts}"
                )
            }
            Call::Advance => Ok(()),
            Call::Add(Job { release, deadline }) => {
                write!(f, ": a job comes in, {release} {deadline}")
            }
            Call::Offer(starts) => {
                let starts = Spaced(starts);
                write!(f, ": the base offers{starts}")
            }
        }
    }
}

// What came of a call: the state after it.
#[derive(Clone, Copy)]
struct Told<'a> {
    call: Call<'a>,
    next: State,
}

impl fmt::Display for Told<'_> {
    fn fmt<W: fmt::Write>(&self, f: &mut fmt::Formatter<W>) -> fmt::Result {
        match (self.call, self.next.outcome) {
            (_, Err(refusal)) => {
                let Answer {
                    code,
                    first,
                    second,
                } = Answer::from(refusal);
                write!(f, ": refused, {code} {first} {second}")
            }
            (Call::Advance, Ok(_)) => match self.next.done_last() {
                Some(row) => write!(f, ": done is job {row}"),
                None => write!(f, ": no job"),
            },
            (Call::Offer(_), Ok(0)) => write!(f, ": not taken"),
            (_, Ok(_)) => {
                let starts = Spaced(self.next.starts());
                write!(f, ": the plan is{starts}")
            }
        }
    }
}

// Numbers, a blank before each.
#[derive(Clone, Copy)]
struct Spaced<'a>(&'a [u16]);

impl fmt::Display for Spaced<'_> {
    fn fmt<W: fmt::Write>(&self, f: &mut fmt::Formatter<W>) -> fmt::Result {
        for number in self.0 {
            write!(f, " {number}")?;
        }
        Ok(())
    }
}
