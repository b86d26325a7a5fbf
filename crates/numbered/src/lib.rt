// Jobs in number order: what rows hold as points, and from what is found back to cost and starts in row order.
#![tactic(auto)]

ghost use Rattle.std.specs.Prelude.{◌≡◌, ℕ, ◌-◌, ◌<◌, ◌≤◌, length};
ghost use Rattle.day.specs.Windows.{at};
ghost use Rattle.checks.specs.Check.{most_wake, most_jobs};
ghost use Rattle.rule.specs.Whole.{without_ends};
ghost use Rattle.numbered.specs.InOrder.{InOrder, Laid};

use day::Day;

// What the rows hold in number order, as points: slots are counted from 1.
pub fn by_number(rows: &[u16], order: &[usize]) -> [u16; 40]
    requires order_len_bound { length order.now ≤ most_jobs }
    requires by_index { (k : ℕ) → k < length order.now → (at order.now k < length rows.now) × (at rows.now (at order.now k) < 65535) }
    ensures { InOrder rows.now order.now (length order.now) result }
{
    let mut to = [0; 40];
    for (number, row) in order.iter().enumerate() {
        to[number] = rows[*row] + 1;
    }
    to
}

// What the whole day costs by its value: the two wakes at the far ends come off, save with no jobs.
pub fn without_ends(day: Day, count: usize, value: u16) -> u16
    requires { day.power.wake ≤ most_wake }
    ensures { result ≡ without_ends day count value }
{
    if count == 0 {
        return 0;
    }
    let ends = day.power.wake + day.power.wake;
    value.saturating_sub(ends)
}

// Writes starts by number, which are points, out in row order as slots. The far point 0 has no slot, and gives 0.
pub fn write_out(starts: &mut [u16], order: &[usize], numbered: &[u16])
    requires order_in_bounds { length order.now ≤ length numbered.now }
    requires by_index { (k : ℕ) → k < length order.now → at order.now k < length starts.old }
    requires by_index_2 { (k l : ℕ) → k < l → l < length order.now → at order.now k ≡ at order.now l → ⊥ }
    ensures { Laid order.now (length order.now) (at numbered.now) starts.old starts.new }
{
    for (number, row) in order.iter().enumerate() {
        starts[*row] = numbered[number].saturating_sub(1);
    }
}
