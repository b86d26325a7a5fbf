// Reading the plan back from a table that the engine has filled, for any problem of the rule, any layout and any width.
#![tactic(auto)]

ghost use Rattle.std.specs.Prelude.{◌≡◌, ◌+◌, ◌<◌, ◌≤◌, length};
ghost use Rattle.day.specs.Windows.{at};
ghost use Rattle.rule.specs.Span.{Problem};
ghost use Rattle.engine.specs.Places.{place, layout_in};
ghost use Rattle.engine.specs.Lent.{lent_in};
ghost use Rattle.readback.specs.StartsRead.{ReadBackAsks, PlanHeld, StartsRead};
ghost use Rattle.engine.specs.steps.OneMore.{more_of, more_in, Fillable};
ghost use Rattle.readback.specs.steps.SplitFound.{SidesRead, SplitFound};
ghost use Rattle.readback.specs.steps.Highest.{Tells, HighestInside};

use engine::{Frame, Loan, NextJob};

// The points from which and to which a span goes.
#[derive(Clone, Copy)]
pub struct Span {
    pub from: usize,
    pub to: usize,
}

// A split of a span: its place, and the values of the two sides.
#[derive(Clone, Copy)]
pub struct Split {
    pub point: usize,
    pub left: u16,
    pub right: u16,
}

// A filled table, and what was lent beside it.
#[derive(Clone, Copy)]
pub struct Reader<'f, 'r, 'd, 'm, 't> {
    pub loan: Loan<'f, 'r, 'd, 'm>,
    pub table: &'t [u16],
}

impl Span {
    // Whether a job released at that point is released in the span.
    fn has(self, release: usize) -> bool
        ensures { Tells result self.from self.to release }
    {
        self.from <= release && release < self.to
    }
}

// The highest of the lowest `count` jobs that is released in the span, where one is.
fn highest_inside(rel: &[u16], count: usize, span: Span) -> Option<usize>
    requires { count ≤ length rel.now }
    ensures { HighestInside (at rel.now) span.from span.to count result }
{
    for job in (0..count).rev() {
        if span.has(usize::from(rel[job])) {
            return Some(job);
        }
    }
    None
}

// The split of a span at `point`, with what the level below `job` has for the two sides.
fn split_at(frame: Frame, table: &[u16], job: usize, span: Span, point: usize) -> Split
    requires from_in_bounds { (span.from < length frame.begins.now) × (point + 1 < length frame.begins.now) }
    requires point_in_bounds { (place (layout_in frame) job span.from point < length table.now) × (place (layout_in frame) job (point + 1) span.to < length table.now) }
    ensures { (result.point ≡ point) × SidesRead (layout_in frame.entry) table.now job span.from span.to result }
{
    Split {
        point,
        left: frame.value_at(table, job, span.from, point),
        right: frame.value_at(table, job, point + 1, span.to),
    }
}

// Where the job splits a span in which it is released and whose value is known: the first place from the evening side with that sum. If
// no later place has it, the release does.
fn latest_best(next: NextJob, table: &[u16], span: Span, value: u16) -> Split
    requires fillable { Fillable (more_in next) table.now }
    requires from_le_release { (span.from ≤ next.release) × (next.release < span.to) × (span.to < next.frame.shape.points) }
    ensures { SplitFound (more_in next.entry) table.now span.from span.to value result }
{
    let after = next.deadline.min(span.to);
    for point in (next.release + 1..after).rev() {
        if next.job < usize::from(next.marks[point]) {
            let split = split_at(next.frame, table, next.job, span, point);
            if split.left + split.right == value {
                return split;
            }
        }
    }
    split_at(next.frame, table, next.job, span, next.release)
}

impl Reader<'_, '_, '_, '_, '_> {
    // Where `job`, which is released in the span, splits it, the span's value being known.
    fn split_of(&self, job: usize, span: Span, value: u16) -> Split
        requires read_back_asks { ReadBackAsks (lent_in self.now.loan) self.now.table.now (job + 1) }
        requires from_bound { (span.from ≤ at self.now.loan.rel.now job) × (at self.now.loan.rel.now job < span.to) × (span.to < self.now.loan.frame.shape.points) }
        ensures { SplitFound (more_of (lent_in self.now.loan) job) self.now.table.now span.from span.to value result }
    {
        latest_best(self.loan.next_job(job), self.table, span, value)
    }

    // Reads back, by number, the starts of the lowest `count` jobs that are released in the span, whose value for them is given: the highest
    // of them splits the span, then each side in turn with the value that was read to find the split.
    pub fn read_back(&self, count: usize, span: Span, value: u16, starts: &mut [u16])
        requires read_back_asks { ReadBackAsks (lent_in self.now.loan) self.now.table.now count }
        requires to_lt_points { (span.to < self.now.loan.frame.shape.points) × (count ≤ length starts.old) }
        requires value_value { value ≡ at self.now.table.now (place (layout_in self.now.loan.frame) count span.from span.to) }
        ensures { (length starts.new ≡ length starts.old) × ((P : Problem) → PlanHeld P (lent_in self.now.loan) self.now.table.now count span.from span.to → StartsRead P count span.from span.to starts.old starts.new) }
    {
        let Some(job) = highest_inside(self.loan.rel, count, span) else {
            return;
        };
        let split = self.split_of(job, span, value);
        starts[job] = split.point as u16;
        let left = Span {
            from: span.from,
            to: split.point,
        };
        let right = Span {
            from: split.point + 1,
            to: span.to,
        };
        self.read_back(job, left, split.left, &mut *starts);
        self.read_back(job, right, split.right, starts);
    }
}
