// Walks over the slots of a day, given by the row that stands in each.
ghost use Rattle.std.specs.Prelude.{◌≤◌, ◌<◌, ◌≡◌, cond, length};
ghost use Rattle.day.specs.Windows.{at};
ghost use Rattle.day.specs.Gap.{asleep};
ghost use Rattle.checks.specs.Check.{most_slots};
ghost use Rattle.ledger.specs.Fills.{Fills};
ghost use Rattle.ledger.specs.Count.{Counted};
ghost use Rattle.ledger.specs.steps.Run.{JobBefore};

use crate::{Counts, Fill};
use day::Power;

// Of a gap's slots, how many the machine sleeps through: all or none.
fn slept(power: Power, gap: u16) -> u16
    ensures { result ≡ cond (asleep power gap) gap 0 }
{
    if power.asleep(gap) { gap } else { 0 }
}

// The five counts.
pub(crate) fn count(power: Power, rows: &[u16]) -> Counts
    requires { length rows.now ≤ most_slots }
    ensures { Counted (asleep power) (length rows.now) (at rows.now) result }
{
    let first = claim::slots::next_job(rows, 0).unwrap_or(rows.len());
    let mut job: u16 = 0;
    let mut awake: u16 = 0;
    let mut asleep: u16 = 0;
    let mut empty: u16 = 0;
    for row in &rows[first..] {
        if *row == 0 {
            empty += 1;
        } else {
            let dark = slept(power, empty);
            asleep += dark;
            awake += empty - dark;
            job += 1;
            empty = 0;
        }
    }
    Counts {
        before: first as u16,
        job,
        awake,
        asleep,
        after: empty,
    }
}

// The last slot before `slot` that holds a job.
fn last_job(rows: &[u16], slot: usize) -> Option<usize>
    requires { slot ≤ length rows.now }
    ensures { JobBefore (at rows.now) slot result }
{
    for last in (0..slot).rev() {
        if rows[last] != 0 {
            return Some(last);
        }
    }
    None
}

// What fills a slot.
pub(crate) fn fill_at(power: Power, rows: &[u16], slot: usize) -> Fill
    requires { (length rows.now ≤ most_slots) × (slot < length rows.now) }
    ensures { Fills (asleep power) (length rows.now) (at rows.now) slot result }
{
    let row = rows[slot];
    if row != 0 {
        return Fill::Job(row);
    }
    let Some(last) = last_job(rows, slot) else {
        return Fill::Before;
    };
    let Some(next) = claim::slots::next_job(rows, slot) else {
        return Fill::After;
    };
    if power.asleep((next - last - 1) as u16) {
        Fill::Asleep
    } else {
        Fill::Awake
    }
}
