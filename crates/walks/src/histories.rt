// Histories on days of up to 3 slots that open with up to 2 jobs: on to every slot, and from there every 2 calls of which the first is not refused.
ghost use Rattle.std.specs.Prelude.{◌≤◌};

use crate::search;
use crate::state::State;
use crate::tally::Tally;
use crate::twin::Call;
use day::{Day, Job, Power};

// As many lists and plans as there are of 2 jobs in 3 slots: 6 numbers up to T + 1.
const OPENINGS: u64 = 15625;

// For each slot of a day more calls than there are: of three kinds, an offer of 3 starts has the most.
const CALLS: u64 = 125;

pub(crate) fn run(tally: &mut Tally) {
    full(tally);
    for count in 0..3 {
        for slots in 1..4 {
            for wake in [0, 2] {
                openings(day_of(slots, wake), count, tally);
            }
        }
    }
}

fn day_of(slots: u16, wake: u16) -> Day {
    Day {
        slots,
        power: Power { wake },
    }
}

// A day with as many jobs as there may be, each with a slot of its own, opened with a start too few and with all.
fn full(tally: &mut Tally) {
    let mut slots = [0; 41];
    for (number, slot) in (0..).zip(slots.iter_mut()) {
        *slot = number;
    }
    let starts = &slots[..40];
    let state = State::listed(day_of(40, 3), starts, &slots[1..], starts);
    state.after(Call::Open(&slots[..39]), tally);
    each_last(&state.after(Call::Open(starts), tally), tally);
}

// The histories of each list of so many jobs and each plan for it.
fn openings(day: Day, count: usize, tally: &mut Tally)
    requires { count ≤ 2 }
{
    for number in 0..OPENINGS {
        let Some(numbers) = search::digits(number, day.slots.wrapping_add(1), 3 * count) else {
            return;
        };
        let (releases, others) = numbers.split_at(count);
        let (deadlines, others) = others.split_at(count);
        let starts = &others[..count];
        let state = State::listed(day, releases, deadlines, starts);
        each_slot(state.after(Call::Open(starts), tally), tally);
    }
}

fn each_slot(opened: State, tally: &mut Tally) {
    let mut state = opened;
    each_first(&state, tally);
    for _ in 0..opened.day.slots {
        let Some(next) = called(&state, 0, tally) else {
            return;
        };
        state = next;
        each_first(&state, tally);
    }
}

fn each_first(state: &State, tally: &mut Tally) {
    for number in 0..CALLS * u64::from(state.day.slots) {
        if let Some(next) = called(state, number, tally) {
            each_last(&next, tally);
        }
    }
}

fn each_last(state: &State, tally: &mut Tally) {
    for number in 0..CALLS * u64::from(state.day.slots) {
        called(state, number, tally);
        called(&forged(state, number), number, tally);
    }
}

// The state after the call of a number; none where there is none or it is refused.
fn called(state: &State, number: u64, tally: &mut Tally) -> Option<State> {
    let count = usize::from(state.count);
    let length = match number % 3 {
        0 => 0,
        1 => 2,
        _ => count,
    };
    let numbers = search::digits(number / 3, state.day.slots.wrapping_add(1), length)?;
    let [release, deadline, ..] = numbers;
    let call = match number % 3 {
        0 => Call::Advance,
        1 => Call::Add(Job { release, deadline }),
        _ => Call::Offer(&numbers[..count.min(7)]),
    };
    let next = state.after(call, tally);
    next.outcome.is_ok().then_some(next)
}

// A day that no call gave back: a count, a slot, a start, T or L is another.
fn forged(state: &State, number: u64) -> State {
    let mut next = *state;
    match number / 3 % 5 {
        0 => next.count = 41,
        1 => next.slot = state.day.slots.wrapping_add(1),
        2 => next.starts[0] = state.deadlines[0],
        3 => next.day.slots = 0,
        _ => next.day.power.wake = 1001,
    }
    next
}
