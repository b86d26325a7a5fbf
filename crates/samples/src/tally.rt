// What was run and what went wrong, counted and printed.
use std::fmt;

// How many cases were run, how many went wrong, and the first of those.
#[derive(Clone, Copy, Default)]
pub struct Tally {
    pub run: u64,
    wrong: u64,
    first: Option<u64>,
}

impl Tally {
    // Counts one more case.
    pub(crate) fn count(&mut self, right: bool) {
        self.run = self.run.wrapping_add(1);
        if !right {
            self.wrong = self.wrong.wrapping_add(1);
            self.first = self.first.or(Some(self.run));
        }
    }
}

impl fmt::Display for Tally {
    fn fmt<W: fmt::Write>(&self, f: &mut fmt::Formatter<W>) -> fmt::Result {
        let Tally { run, wrong, first } = *self;
        writeln!(f, "{run}")?;
        writeln!(f, "wrong {wrong}")?;
        match first {
            Some(first) => writeln!(f, "first wrong {first}"),
            None => Ok(()),
        }
    }
}
