// The plan: checks, the cost table, read-back. Releases and deadlines are two lists of numbers,
// as 01's number form has them and the public promises speak of them.
#![tactic(auto)]

mod price;

ghost use Rattle.std.specs.Prelude.{◌≡◌, ℕ, ◌+◌, ◌-◌, ◌<◌, ◌≤◌, List, length};
ghost use Rattle.day.specs.Windows.{at, windows};
ghost use Rattle.checks.specs.Check.{most_wake, most_jobs};
ghost use Rattle.checks.specs.Answer.{answered, checked};
ghost use Rattle.checks.specs.Refusal.{◌then◌, Passed};
ghost use Rattle.rule.specs.Span.{Problem};
ghost use Rattle.checks.specs.Zero.{zeroed};
ghost use Rattle.engine.specs.Lent.{lent_in, Posed};
ghost use Rattle.readback.specs.StartsRead.{ReadBackAsks};
ghost use Rattle.planner.specs.Table.{need};
ghost use Rattle.planner.specs.steps.Jobs.{RowsInOrder, WithinLimits, ProblemOf, LentSquare, PosedAtPrices};
ghost use Rattle.planner.specs.steps.Finished.{Levels, Tabled, FindsPlan, Told};
ghost use Rattle.checks.specs.steps.Never.{Never};
ghost use Rattle.checks.specs.Planned.{Planned};
ghost use Rattle.planner.specs.Promise.{PlanCheck, PlanPromise};

use checks::outcome::Refusal;
use day::Day;
use engine::{Frame, Loan};
use readback::{Reader, Span};

// Stands for "none" in the table, whose places are numbers: more than a plan can cost, and the sum of two still has 15 bits.
const NONE: u16 = 16000;

// What is found of jobs in number order that have a plan: the value of the whole day, and the starts by number.
#[derive(Clone, Copy)]
pub struct Found {
    pub value: u16,
    pub starts: [u16; 40],
}

// How many places `count` jobs need.
fn need_of(slots: u16, count: usize) -> usize
    requires { count < 65536 }
    ensures { result ≡ need slots count }
{
    let width = usize::from(slots) + 3;
    (count + 1) * width * width
}

// How many places of the work table `count` jobs need on a day of so many slots.
pub fn places_needed(slots: u16, count: u16) -> usize
    ensures { result ≡ need slots count }
{
    need_of(slots, usize::from(count))
}

// Fills the table for `count` jobs that are in number order.
fn fill_table(day: Day, loan: Loan, count: usize, table: &mut [u16])
    requires lent_square { LentSquare day (lent_in loan) count }
    requires count_in_bounds { need day.slots count ≤ length table.old }
    ensures { Tabled day (lent_in loan.entry) count table.old table.new }
{
    price::price_level(day, loan.frame, &mut *table);
    let mut sums = [NONE; 99];
    loan.fill(count, table, &mut sums);
}

// Reads the value of the whole day from a filled table, and the starts back, if there is a plan.
fn find(loan: Loan, count: usize, table: &[u16]) -> Option<Found>
    requires read_back_asks { ReadBackAsks (lent_in loan) table.now count }
    requires count_le_most_jobs { (count ≤ most_jobs) × (0 < loan.frame.shape.points) }
    ensures { (P : Problem) → Posed P (lent_in loan.entry) count → Levels P (lent_in loan.entry) count table.now → FindsPlan P count (loan.entry.frame.shape.points - 1) result }
{
    let shape = loan.frame.shape;
    let day = Span {
        from: 0,
        to: shape.points - 1,
    };
    let value = loan.frame.value_at(table, count, day.from, day.to);
    if value >= shape.none {
        return None;
    }
    let mut starts = [0; 40];
    Reader { loan, table }.read_back(count, day, value, &mut starts);
    Some(Found { value, starts })
}

// Fills the table, reads what is found there, and sets the table to zero.
fn finish(day: Day, loan: Loan, count: usize, table: &mut [u16]) -> Option<Found>
    requires lent_square { LentSquare day (lent_in loan) count }
    requires count_in_bounds { need day.slots count ≤ length table.old }
    ensures { ((P : Problem) → PosedAtPrices day (lent_in loan.entry) count P → FindsPlan P count (day.slots + 2) result) × (table.new ≡ zeroed (need day.slots count) table.old) }
{
    fill_table(day, loan, count, &mut *table);
    let found = find(loan, count, &*table);
    let needed = need_of(day.slots, count);
    checks::zero_first(table, needed);
    found
}

// Finds the plan of jobs that are in number order: lays the table out as a square of the day's points, in which a job may start at every slot.
// The arrays have room for the most jobs and points, since the memory is fixed.
fn plan_numbered(
    day: Day,
    rel: &[u16],
    dead: &[u16],
    count: usize,
    table: &mut [u16],
) -> Option<Found>
    requires within_limits { WithinLimits day rel.now dead.now count }
    requires count_in_bounds { need day.slots count ≤ length table.old }
    ensures { ((P : Problem) → ProblemOf day rel.now dead.now count P → FindsPlan P count (day.slots + 2) result) × (table.new ≡ zeroed (need day.slots count) table.old) }
{
    let mut marks = [checks::MOST_JOBS; 99];
    engine::mark::mark_releases(rel, count, &mut marks);
    let points = usize::from(day.slots) + 3;
    let mut begins = [0; 99];
    engine::square::begin_bands(points, &mut begins);
    let frame = Frame {
        shape: engine::square::shape_of(points, NONE),
        begins: &begins,
    };
    let loan = Loan {
        frame,
        rel,
        dead,
        marks: &marks,
    };
    finish(day, loan, count, table)
}

// Answers by what is found, and writes a plan's starts out in row order.
fn tell(day: Day, order: &[usize], found: Option<Found>, starts: &mut [u16]) -> Result<u16, Refusal>
    requires wake_le_most_wake { (day.power.wake ≤ most_wake) × (length order.now ≤ most_jobs) }
    requires by_index { (k : ℕ) → k < length order.now → at order.now k < length starts.old }
    requires by_index_2 { (k l : ℕ) → k < l → l < length order.now → at order.now k ≡ at order.now l → ⊥ }
    ensures { Told day order.now found starts.old (answered result) starts.new }
{
    let found = found.ok_or(Refusal::NoPlan)?;
    numbered::write_out(starts, order, &found.starts);
    Ok(numbered::without_ends(day, order.len(), found.value))
}

// Plans a list that the checks accept; `order` has the rows in number order.
fn solve(
    day: Day,
    releases: &[u16],
    deadlines: &[u16],
    order: &[usize],
    starts: &mut [u16],
    table: &mut [u16],
) -> Result<u16, Refusal>
    requires rows_in_order { RowsInOrder day releases.now deadlines.now order.now }
    requires releases_in_bounds { (length releases.now ≤ length starts.old) × (need day.slots (length releases.now) ≤ length table.old) }
    ensures { Planned Never (need day.slots (length releases.now)) day (windows releases.now deadlines.now) starts.old table.old (answered result) starts.new table.new }
{
    let rel = numbered::by_number(releases, order);
    let dead = numbered::by_number(deadlines, order);
    let found = plan_numbered(day, &rel, &dead, order.len(), table);
    tell(day, order, found, starts)
}

// Codes 1 to 6, with room for so many starts and a table of so many places.
fn check_plan(
    day: Day,
    releases: &[u16],
    deadlines: &[u16],
    room: usize,
    places: usize,
) -> Result<(), Refusal>
    ensures { (starts table : List ℕ) → length starts ≡ room → length table ≡ places → (PlanCheck day (windows releases.now deadlines.now) starts table then Passed) (checked result) }
{
    checks::check_list(day, releases, deadlines)?;
    let count = releases.len();
    let needed = need_of(day.slots, count);
    if room < count {
        return Err(Refusal::FewStarts);
    }
    if places < needed {
        return Err(Refusal::ShortTable);
    }
    Ok(())
}

// Plans one-slot jobs, given as separate lists of releases and deadlines, at least cost: gives the cost, and writes the best plan's starts in
// row order; on code 7 there is no proper plan. The needed places of the table are zero then. Under any other code nothing changes.
pub fn plan(
    day: Day,
    releases: &[u16],
    deadlines: &[u16],
    starts: &mut [u16],
    table: &mut [u16],
) -> Result<u16, Refusal>
    ensures { PlanPromise day (windows releases.now deadlines.now) starts.old table.old (answered result) starts.new table.new }
{
    check_plan(day, releases, deadlines, starts.len(), table.len())?;
    let mut order = [0; 40];
    let order = &mut order[..releases.len()];
    day::number_rows(deadlines, &mut *order);
    solve(day, releases, deadlines, &*order, starts, table)
}
