// A state of a day in the field, as the twin knows it.
ghost use Rattle.std.specs.Prelude.{◌≤◌};

use checks::outcome::Refusal;
use day::{Day, Power};
use fieldday::FieldDay;

// A place more than a day takes, so that a row too many has one.
pub type Column = [u16; 41];

// What the call before came to, the day that is held after it, and a log: the row that was done in each slot, counted from 1.
#[derive(Clone, Copy)]
pub struct State {
    pub outcome: Result<u16, Refusal>,
    pub day: Day,
    pub slot: u16,
    pub count: u16,
    pub releases: Column,
    pub deadlines: Column,
    pub starts: Column,
    pub log: [Option<u16>; 96],
}

impl State {
    // A day that opens with these rows and starts, in lists as the library takes them; beyond the rows stands what a wake costs.
    pub(crate) fn listed(day: Day, releases: &[u16], deadlines: &[u16], starts: &[u16]) -> State {
        let wake = day.power.wake;
        State {
            outcome: Ok(0),
            day,
            slot: 0,
            count: releases.len().min(41) as u16,
            releases: filled(releases, wake),
            deadlines: filled(deadlines, wake),
            starts: filled(starts, wake),
            log: [None; 96],
        }
    }

    // The day of zeros.
    pub(crate) fn none() -> State {
        let power = Power { wake: 0 };
        State::listed(Day { slots: 0, power }, &[], &[], &[])
    }

    // The releases of the rows.
    pub(crate) fn releases(&self) -> &[u16] {
        &self.releases[..self.rows()]
    }

    // The deadlines of the rows.
    pub(crate) fn deadlines(&self) -> &[u16] {
        &self.deadlines[..self.rows()]
    }

    // The starts of the rows.
    pub(crate) fn starts(&self) -> &[u16] {
        &self.starts[..self.rows()]
    }

    // The row that was done in the slot before, counted from 1.
    pub(crate) fn done_last(&self) -> Option<u16> {
        let slot = usize::from(self.slot).checked_sub(1)?;
        *self.log.get(slot)?
    }

    // How many rows there are, as many as have a place.
    fn rows(&self) -> usize
        ensures { result ≤ 41 }
    {
        usize::from(self.count).min(41)
    }

    // The day as the library holds it.
    pub(crate) fn field(&self) -> FieldDay {
        FieldDay {
            day: self.day,
            slot: self.slot,
            count: self.count,
            releases: forty(&self.releases),
            deadlines: forty(&self.deadlines),
            starts: forty(&self.starts),
        }
    }
}

// A column that begins with these numbers, and has another in the places that are left.
fn filled(numbers: &[u16], other: u16) -> Column {
    let mut column = [other; 41];
    for (place, number) in column.iter_mut().zip(numbers) {
        *place = *number;
    }
    column
}

// The places that a day has.
fn forty(column: &Column) -> [u16; 40] {
    let mut rows = [0; 40];
    rows.copy_from_slice(&column[..40]);
    rows
}
