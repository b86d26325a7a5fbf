// The rows of a lent list of job records, by value: copied out of the list, and put back over it.
#![tactic(auto)]

ghost use Rattle.std.specs.Prelude.{◌≡◌, ◌<◌};
ghost use Rattle.rows.specs.Rows.{copy_count, no_rows, with_job, rows_of, put_count, job_at, put_over};
ghost use Rattle.rows.specs.steps.InRows.{releases_in, deadlines_in};

use day::Job;

// What the number forms work on: one row more than a day's list may have, so that a list that is too long is seen. They take two columns, so the rows
// stand as two; a count above 41 is no fault, since the columns end where the places do.
#[derive(Clone, Copy)]
pub struct Rows {
    pub count: usize,
    pub releases: [u16; 41],
    pub deadlines: [u16; 41],
}

impl Rows {
    // So many rows, before any is copied.
    fn zeros(count: usize) -> Rows
        ensures { result ≡ no_rows count }
    {
        Rows {
            count,
            releases: [0; 41],
            deadlines: [0; 41],
        }
    }

    // The column of the rows' releases: as many as are counted, as far as there is a place.
    pub fn releases(&self) -> &[u16]
        ensures { result.now ≡ releases_in self.now }
    {
        &self.releases[..self.count.min(41)]
    }

    // The column of their deadlines.
    pub fn deadlines(&self) -> &[u16]
        ensures { result.now ≡ deadlines_in self.now }
    {
        &self.deadlines[..self.count.min(41)]
    }

    // Puts a job in a place.
    fn put(&mut self, at: usize, job: Job)
        requires { at < 41 }
        ensures { self.new ≡ with_job self.old at job }
    {
        self.releases[at] = job.release;
        self.deadlines[at] = job.deadline;
    }

    // The job in a place.
    fn job(&self, at: usize) -> Job
        requires { at < 41 }
        ensures { result ≡ job_at self.now at }
    {
        Job {
            release: self.releases[at],
            deadline: self.deadlines[at],
        }
    }
}

// How many rows of a list are copied from row `from` on, counted from 0: those that there are, as far as there is a place.
fn rows_copied(len: usize, from: usize) -> usize
    ensures { result ≡ copy_count len from }
{
    len.saturating_sub(from).min(41)
}

// The rows of a list from row `from` on, at most 41 of them.
pub fn copy_out(jobs: &[Job], from: usize) -> Rows
    ensures { result ≡ rows_of from jobs.now }
{
    let end = rows_copied(jobs.len(), from);
    let mut rows = Rows::zeros(end);
    for i in 0..end {
        rows.put(i, jobs[from + i]);
    }
    rows
}

// How many rows are put back: those that there are, as far as there is a place.
pub fn rows_put(places: usize, count: usize) -> usize
    ensures { result ≡ put_count places count }
{
    if count > 41 { 0 } else { count.min(places) }
}

// Puts rows over the first of a list.
pub fn put_back(jobs: &mut [Job], rows: Rows)
    ensures { jobs.new ≡ put_over jobs.old rows }
{
    let end = rows_put(jobs.len(), rows.count);
    for i in 0..end {
        jobs[i] = rows.job(i);
    }
}
