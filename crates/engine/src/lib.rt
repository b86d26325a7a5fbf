// One engine for every table: it fills a table by the rule, for any problem of the rule, any layout and any width.
#![tactic(auto)]

ghost use Rattle.std.specs.Prelude.{◌≡◌, ◌<◌, length};
ghost use Rattle.engine.specs.Lent.{lent_in};
ghost use Rattle.engine.specs.steps.OneMore.{more_of, more_in};

pub mod bands;
pub mod fill;
pub mod mark;
pub mod square;

// The shape of a table: how many points there are, how many places a level has, and the number that stands for "none".
#[derive(Clone, Copy)]
pub struct Shape {
    pub points: usize,
    pub level: usize,
    pub none: u16,
}

// The frame of a table: its shape, and where the bands of a level begin.
#[derive(Clone, Copy)]
pub struct Frame<'a> {
    pub shape: Shape,
    pub begins: &'a [usize],
}

// What is lent beside the table: its frame, and the jobs by number: releases, deadlines, and for each point how many of the lowest jobs
// may split there. Each has a lifetime of its own, so that a caller may lend them from different places.
#[derive(Clone, Copy)]
pub struct Loan<'f, 'r, 'd, 'm> {
    pub frame: Frame<'f>,
    pub rel: &'r [u16],
    pub dead: &'d [u16],
    pub marks: &'m [u16],
}

// What one job more takes beside the table: its frame, the marks, and the job's number and window.
#[derive(Clone, Copy)]
pub struct NextJob<'f, 'm> {
    pub frame: Frame<'f>,
    pub marks: &'m [u16],
    pub job: usize,
    pub release: usize,
    pub deadline: usize,
}

impl<'f, 'm> Loan<'f, '_, '_, 'm> {
    // The job of this number, with its window.
    pub fn next_job(self, job: usize) -> NextJob<'f, 'm>
        requires { (job < length self.rel.now) × (job < length self.dead.now) }
        ensures { more_in result ≡ more_of (lent_in self.entry) job }
    {
        NextJob {
            frame: self.frame,
            marks: self.marks,
            job,
            release: usize::from(self.rel[job]),
            deadline: usize::from(self.dead[job]),
        }
    }
}
