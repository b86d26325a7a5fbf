// The slow search: of all start vectors with each job in its window and no two starts the same, the cheapest, and of those the latest by the
// tie rule.
use crate::case::Case;
use crate::{direct, draw};
use checks::outcome::Refusal;

// A start that nothing has written.
pub const UNTOUCHED: u16 = 9999;

// More start vectors than there are.
const MOST: u64 = 100000;

// What the planner has to answer, and the starts that it has to write.
#[derive(Clone, Copy)]
pub struct Found {
    pub outcome: Result<u16, Refusal>,
    pub starts: [u16; 5],
}

// A proper plan and its cost.
#[derive(Clone, Copy)]
struct Priced {
    cost: u16,
    starts: [u16; 5],
}

// Plans a list of at most 5 rows.
pub(crate) fn plan(case: Case<'_>) -> Found {
    match search(case) {
        Ok(best) => {
            let starts = best.starts;
            Found {
                outcome: Ok(best.cost),
                starts,
            }
        }
        Err(refusal) => Found {
            outcome: Err(refusal),
            starts: [UNTOUCHED; 5],
        },
    }
}

// Looks at every start vector of a list whose rows are good.
fn search(case: Case<'_>) -> Result<Priced, Refusal> {
    if let Err(Refusal::BadRow(row)) = direct::judged(case, case.releases) {
        return Err(Refusal::BadRow(row));
    }
    (0..MOST)
        .map_while(|number| vector_of(case, number))
        .fold(None, |best, starts| better(case, best, starts))
        .ok_or(Refusal::NoPlan)
}

// The start vector of a number: its digits, each in the base of a row's window, count from the releases; none where digits are left.
fn vector_of(case: Case<'_>, number: u64) -> Option<[u16; 5]> {
    let mut starts = [UNTOUCHED; 5];
    let mut left = number;
    for (start, (release, deadline)) in starts
        .iter_mut()
        .zip(case.releases.iter().zip(case.deadlines))
    {
        let window = deadline.wrapping_sub(*release);
        *start = release.wrapping_add(draw::take_digit(&mut left, window));
    }
    (left == 0).then_some(starts)
}

// The better of the best plan so far and a start vector.
fn better(case: Case<'_>, best: Option<Priced>, starts: [u16; 5]) -> Option<Priced> {
    let Ok(cost) = direct::judged(case, &starts) else {
        return best;
    };
    let plan = Priced { cost, starts };
    match best {
        Some(other) if !is_better(case, &plan, &other) => best,
        _ => Some(plan),
    }
}

// Whether a plan is better than another: it costs less, or as much and is later.
fn is_better(case: Case<'_>, plan: &Priced, other: &Priced) -> bool {
    plan.cost < other.cost || plan.cost == other.cost && is_later(case, &plan.starts, &other.starts)
}

// Whether the highest-numbered job on which the two plans differ starts later in the first: of the rows that differ the one with the latest
// deadline, of equal deadlines the last.
fn is_later(case: Case<'_>, starts: &[u16; 5], others: &[u16; 5]) -> bool {
    case.deadlines
        .iter()
        .zip(starts.iter().zip(others))
        .filter(|(_, (start, other))| start != other)
        .max_by_key(|(deadline, _)| **deadline)
        .is_some_and(|(_, (start, other))| start > other)
}
