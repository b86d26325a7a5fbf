// The search over all starts for what is left of a day.
use crate::state::State;

// A vector of starts, and what it costs; its places are fixed, as the columns' are, and what has more digits is none.
#[derive(Clone, Copy)]
pub struct Plan {
    pub cost: u16,
    pub starts: [u16; 7],
}

// More vectors than there are of 5 starts in 12 slots.
const MOST: u64 = 250000;

// So many digits of a number, 6 at most, each up to `top`, and zeros in the places that are left; none where it has more.
pub(crate) fn digits(number: u64, top: u16, count: usize) -> Option<[u16; 7]> {
    let base = u64::from(top) + 1;
    let mut left = number;
    let mut list = [0; 7];
    for digit in list.iter_mut().take(count.min(6)) {
        *digit = (left % base) as u16;
        left /= base;
    }
    (left == 0).then_some(list)
}

impl State {
    // Of all vectors of starts the cheapest plan for what is left, the latest by the tie rule.
    pub(crate) fn best(&self) -> Option<Plan> {
        let last = self.day.slots.wrapping_sub(1);
        let count = usize::from(self.count);
        (0..MOST)
            .map_while(|number| digits(number, last, count))
            .fold(None, |best, starts| self.better(best, starts))
    }

    // The better of the best so far and a vector of starts.
    fn better(&self, best: Option<Plan>, starts: [u16; 7]) -> Option<Plan> {
        let Ok(cost) = self.left(&starts) else {
            return best;
        };
        let plan = Plan { cost, starts };
        match best {
            Some(other) if !self.is_better(&plan, &other) => best,
            _ => Some(plan),
        }
    }

    // Whether a plan costs less than another, or as much and is later by the tie rule.
    fn is_better(&self, plan: &Plan, other: &Plan) -> bool {
        plan.cost < other.cost
            || plan.cost == other.cost && self.is_later(&plan.starts, &other.starts)
    }

    // Whether the highest-numbered job on which two plans differ starts later in the first: rows by deadline and row, from the highest.
    fn is_later(&self, starts: &[u16; 7], others: &[u16; 7]) -> bool {
        self.deadlines()
            .iter()
            .zip(starts.iter().zip(others))
            .filter(|(_, (start, other))| start != other)
            .max_by_key(|(deadline, _)| **deadline)
            .is_some_and(|(_, (start, other))| start > other)
    }

    // The first row, counted from 1, that the log has not where it starts before the slot, or has though it starts later.
    pub(crate) fn first_undone(&self, starts: &[u16]) -> Option<u16> {
        (1..=self.count).zip(starts).find_map(|(row, start)| {
            let done = self.log.iter().position(|done| *done == Some(row));
            let due = (*start < self.slot).then_some(usize::from(*start));
            (done != due).then_some(row)
        })
    }
}
