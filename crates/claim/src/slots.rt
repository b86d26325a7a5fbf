// The slots of a day as a list of rows, and walks over them.
ghost use Rattle.std.specs.Prelude.{ℕ, ◌<◌, ◌≤◌, ◌≡◌, length};
ghost use Rattle.day.specs.Windows.{at};
ghost use Rattle.checks.specs.Check.{most_jobs, most_slots};
ghost use Rattle.claim.specs.Rows.{RowsBySlot, FoundJob};
ghost use Rattle.claim.specs.steps.Starts.{rows_cost};

use day::Power;

// The row, counted from 1, that starts at each slot; 0 where none does: RowsBySlot is over numbers, and so no Option stands here.
pub(crate) fn rows_by_slot(starts: &[u16]) -> [u16; 96]
    requires length_le_most_jobs { length starts.now ≤ most_jobs }
    requires by_index { (i : ℕ) → i < length starts.now → at starts.now i < most_slots }
    ensures { RowsBySlot (length starts.now) (at starts.now) result }
{
    let mut rows = [0u16; 96];
    for (row, start) in starts.iter().enumerate() {
        rows[usize::from(*start)] = (row + 1) as u16;
    }
    rows
}

// The first slot from `from` on that holds a job.
#[tactic(auto, unfolding(crate::specs::Rows::holds_job))]
pub fn next_job(rows: &[u16], from: usize) -> Option<usize>
    ensures { FoundJob rows.now from result }
{
    for slot in from..rows.len() {
        if rows[slot] != 0 {
            return Some(slot);
        }
    }
    None
}

// What the gaps between the jobs cost.
pub(crate) fn cost(power: Power, rows: &[u16]) -> u16
    requires { length rows.now ≤ most_slots }
    ensures { result ≡ rows_cost power rows.now }
{
    let Some(first) = next_job(rows, 0) else {
        return 0;
    };
    let mut cost: u16 = 0;
    let mut empty: u16 = 0;
    for row in &rows[first..] {
        if *row == 0 {
            empty += 1;
        } else {
            cost += power.price(empty);
            empty = 0;
        }
    }
    cost
}
