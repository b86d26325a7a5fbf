// Marks: for each point how many of the lowest jobs may split there.
ghost use Rattle.std.specs.Prelude.{ℕ, ◌<◌, ◌≤◌, length};
ghost use Rattle.day.specs.Windows.{at};
ghost use Rattle.engine.specs.Marks.{MarkedBy};
ghost use Rattle.engine.specs.steps.MarkLowered.{MarkLowered};

// Lowers the mark of each point where a job is released, so that no higher job splits there. A point that is not allowed has mark 0
// and keeps it; any other has a mark of at least `count` at first.
pub fn mark_releases(rel: &[u16], count: usize, marks: &mut [u16])
    requires count_bound { (count < 65536) × (count ≤ length rel.now) }
    requires by_index { (k : ℕ) → k < count → at rel.now k < length marks.old }
    requires by_index_2 { (t : ℕ) → t < length marks.old → 0 < at marks.old t → count ≤ at marks.old t }
    ensures { MarkedBy rel.now 0 count marks.old marks.new }
{
    for job in (0..count).rev() {
        lower_mark(&mut *marks, usize::from(rel[job]), job + 1);
    }
}

// Lowers a mark that is not 0 to `jobs`.
fn lower_mark(marks: &mut [u16], point: usize, jobs: usize)
    requires { (point < length marks.old) × (jobs < 65536) }
    ensures { MarkLowered point jobs marks.old marks.new }
{
    if marks[point] == 0 {
        return;
    }
    marks[point] = jobs as u16;
}
