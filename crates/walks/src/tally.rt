// What was answered, counted and printed.
use crate::twin::Call;
use checks::outcome::Refusal;
use std::fmt;

// How many calls went wrong, and of the others how many were refused, were offers taken, and were any other call that was answered 0.
#[derive(Clone, Copy, Default)]
pub struct Tally {
    wrong: u64,
    refused: u64,
    taken: u64,
    done: u64,
}

impl Tally {
    // Counts a call that came to this.
    pub(crate) fn count(&mut self, call: Call<'_>, outcome: Result<u16, Refusal>, right: bool) {
        match (call, outcome) {
            _ if !right => self.wrong = self.wrong.wrapping_add(1),
            (_, Err(_)) => self.refused = self.refused.wrapping_add(1),
            (Call::Offer(_), Ok(1)) => self.taken = self.taken.wrapping_add(1),
            (_, Ok(_)) => self.done = self.done.wrapping_add(1),
        }
    }
}

impl fmt::Display for Tally {
    fn fmt<W: fmt::Write>(&self, f: &mut fmt::Formatter<W>) -> fmt::Result {
        let Tally {
            wrong,
            refused,
            taken,
            done,
        } = *self;
        writeln!(f, "calls wrong {wrong}")?;
        writeln!(f, "refused {refused}")?;
        writeln!(f, "offers taken {taken}")?;
        writeln!(f, "others answered 0 {done}")
    }
}
