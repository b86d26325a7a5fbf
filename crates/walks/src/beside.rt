// A call of the library beside the twin's.
use crate::state::State;
use crate::tally::Tally;
use crate::twin::Call;
use checks::Answer;
use checks::outcome::Refusal;
use day::Job;
use fieldday::FieldAnswer;

// What a place of the table holds that nothing has written.
const UNTOUCHED: u16 = 9999;

impl State {
    // The state after a call, which the library makes too.
    pub(crate) fn after(&self, call: Call<'_>, tally: &mut Tally) -> State {
        let next = self.told(call);
        let right = self.comes_to(call, &next) && next.is_done_once();
        tally.count(call, next.outcome, right);
        next
    }

    // Whether the library gives what the twin told.
    fn comes_to(&self, call: Call<'_>, next: &State) -> bool {
        match call {
            Call::Open(starts) => next.is_given(fieldday::open(
                self.day,
                self.releases(),
                self.deadlines(),
                starts,
            )),
            Call::Advance => next.is_given(fieldday::advance(self.field())),
            Call::Add(job) => self.adds(job, next),
            Call::Offer(starts) => next.is_given(fieldday::offer(self.field(), starts)),
        }
    }

    // Where the planner answers, the needed places of the table are zero, and nothing else is touched.
    fn adds(&self, job: Job, next: &State) -> bool {
        let mut table = [UNTOUCHED; 1600];
        let places = self.places(job).min(1600);
        let given = fieldday::add(
            self.field(),
            job.release,
            job.deadline,
            &mut table[..places],
        );
        let needed = match next.outcome {
            Ok(_) | Err(Refusal::NoPlan) => self.needed().min(1600),
            Err(_) => 0,
        };
        next.is_given(given)
            && table[..needed].iter().all(|number| *number == 0)
            && table[needed..].iter().all(|number| *number == UNTOUCHED)
    }

    // Whether answer and day are these, where after an answer 0 the columns are zero beyond the rows.
    fn is_given(&self, given: FieldAnswer) -> bool {
        let mut field = self.field();
        if self.outcome.is_ok() {
            let rows = usize::from(self.count).min(40);
            field.releases[rows..].fill(0);
            field.deadlines[rows..].fill(0);
            field.starts[rows..].fill(0);
        }
        given
            == FieldAnswer {
                answer: Answer::from(self.outcome),
                held: field,
            }
    }
}
