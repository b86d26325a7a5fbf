// Small days: every list of up to 3 jobs in up to 4 slots, and a fixed pseudo-random set of up to 5 jobs in up to 9 slots.
use crate::case::Case;
use crate::tally::Tally;
use crate::{PLACES, beside, draw, slow};
use checks::Answer;
use checks::outcome::Refusal;
use day::{Day, Job, Power, at_or_zero};

// As many lists as there are of 3 jobs in 4 slots.
const LISTS: u64 = 4096;

// How many days are drawn.
const DRAWN: u64 = 4000;

// A day with a list of up to 5 rows, in two columns as the library takes them.
#[derive(Clone, Copy)]
struct Small {
    day: Day,
    count: u16,
    releases: [u16; 5],
    deadlines: [u16; 5],
}

impl Small {
    // A day of so many rows, which are taken one by one.
    fn made<F: FnMut() -> Job>(day: Day, count: u16, mut next: F) -> Small
        requires { F.IsAlwaysCallable next }
    {
        let mut releases = [0; 5];
        let mut deadlines = [0; 5];
        let rows = releases.iter_mut().zip(deadlines.iter_mut());
        for (release, deadline) in rows.take(usize::from(count)) {
            let job = next();
            *release = job.release;
            *deadline = job.deadline;
        }
        Small {
            day,
            count,
            releases,
            deadlines,
        }
    }

    // The list of a number: of each window two digits in base T, which may be an empty window; none where digits are left.
    fn listed(day: Day, count: u16, number: u64) -> Option<Small> {
        let mut left = number;
        let list = Small::made(day, count, || {
            let release = draw::take_digit(&mut left, day.slots);
            let more = draw::take_digit(&mut left, day.slots);
            Job {
                release,
                deadline: more.wrapping_add(1),
            }
        });
        (left == 0).then_some(list)
    }

    // The day of a key, and its windows, which are in the day.
    fn drawn(key: u64) -> Small {
        let slots = draw::below(9, key).wrapping_add(1);
        let wake = draw::below(6, key.wrapping_add(1));
        let count = draw::below(6, key.wrapping_add(2));
        let mut key = key.wrapping_add(3);
        Small::made(day_of(slots, wake), count, || {
            let release = draw::below(slots, key);
            let more = draw::below(slots.saturating_sub(release), key.wrapping_add(1));
            key = key.wrapping_add(2);
            Job {
                release,
                deadline: release.wrapping_add(more).wrapping_add(1),
            }
        })
    }

    fn case(&self) -> Case<'_> {
        let count = usize::from(self.count).min(5);
        Case {
            day: self.day,
            count,
            releases: &self.releases[..count],
            deadlines: &self.deadlines[..count],
        }
    }
}

fn day_of(slots: u16, wake: u16) -> Day {
    Day {
        slots,
        power: Power { wake },
    }
}

// What the days came to: the tally, how many lists were refused, and how many had no plan.
#[derive(Clone, Copy, Default)]
struct Compared {
    tally: Tally,
    refused: u64,
    without: u64,
}

pub(crate) fn run(rt: &impl Print, table: &mut [u16]) {
    let Compared {
        tally,
        refused,
        without,
    } = all(table);
    // A line that is lost shows in what the program wrote.
    let _ = print!(rt; "days compared {tally}refused {refused}\nwithout a plan {without}\n");
}

fn all(table: &mut [u16]) -> Compared {
    let mut compared = Compared::default();
    for wake in 0..5 {
        for count in 0..4 {
            for slots in 1..5 {
                compared.lists(day_of(slots, wake), count, table);
            }
        }
    }
    for number in 0..DRAWN {
        compared.compare(Small::drawn(64 * number).case(), table);
    }
    compared
}

impl Compared {
    // Compares the lists of so many jobs on a day.
    fn lists(&mut self, day: Day, count: u16, table: &mut [u16]) {
        for number in 0..LISTS {
            let Some(list) = Small::listed(day, count, number) else {
                return;
            };
            self.compare(list.case(), table);
        }
    }

    // Compares one day: its plan, its crowded span, two claimed plans, and the choice between them.
    fn compare(&mut self, case: Case<'_>, table: &mut [u16]) {
        let found = slow::plan(case);
        let answer = Answer::from(found.outcome);
        let right = beside::planned(case, PLACES, answer, &found.starts, table)
            && beside::crowded(case, found.outcome)
            && same_claims(draw::scrambled(self.tally.run), case, &found.starts);
        self.tally.count(right);
        match found.outcome {
            Err(Refusal::BadRow(_)) => self.refused = self.refused.wrapping_add(1),
            Err(Refusal::NoPlan) => self.without = self.without.wrapping_add(1),
            _ => {}
        }
    }
}

// Compares a claim that is drawn, the best plan as a claim, and the choice between the two.
fn same_claims(key: u64, case: Case<'_>, best: &[u16]) -> bool {
    let own = claim(key, case);
    let length = usize::from(draw::below(20, key.wrapping_add(1)));
    let drawn = &own[..length.min(5)];
    beside::claimed(case, drawn) && beside::claimed(case, best) && beside::chosen(case, drawn, best)
}

// Claimed starts.
fn claim(key: u64, case: Case<'_>) -> [u16; 5] {
    let mut starts = [0; 5];
    for (row, place) in starts.iter_mut().enumerate() {
        *place = start(key.wrapping_add(2 * row as u64), case, row);
    }
    starts
}

// A start that is drawn for a row, most often in its window.
fn start(key: u64, case: Case<'_>, row: usize) -> u16 {
    if draw::below(8, key.wrapping_add(1)) == 0 {
        return draw::below(case.day.slots.wrapping_add(2), key);
    }
    let release = at_or_zero(case.releases, row);
    let window = at_or_zero(case.deadlines, row).saturating_sub(release);
    release.wrapping_add(draw::below(window, key))
}
