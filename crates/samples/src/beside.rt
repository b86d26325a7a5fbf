// The planner and its companions beside what they have to answer, on one case.
use crate::case::Case;
use crate::{direct, slow};
use checks::Answer;
use checks::outcome::Refusal;
use crowd::{CrowdAnswer, CrowdedSpan};
use ledger::{Counts, Fill, LedgerAnswer, SlotAnswer, SlotFill};

// The zeros that stand for "no span".
const NO_SPAN: CrowdedSpan = CrowdedSpan {
    begin: 0,
    end: 0,
    jobs: 0,
};

// Whether the planner gives this answer and these starts, with as many places for starts, and in a table of so many places.
pub(crate) fn planned(
    case: Case<'_>,
    places: usize,
    answer: Answer,
    starts: &[u16],
    table: &mut [u16],
) -> bool {
    let mut written = [slow::UNTOUCHED; 96];
    let written = &mut written[..starts.len().min(96)];
    let Some(table) = table.get_mut(..places) else {
        return false;
    };
    let given = planner::plan(case.day, case.releases, case.deadlines, written, table);
    Answer::from(given) == answer && *written == *starts
}

// Whether the search for a crowded span answers what the slow planner's answer and the walk over all spans say.
pub(crate) fn crowded(case: Case<'_>, planned: Result<u16, Refusal>) -> bool {
    match (planned, direct::crowded(case)) {
        (Err(Refusal::BadRow(_)), _) => shows_span(case, Answer::from(planned), NO_SPAN),
        (Err(Refusal::NoPlan), Some(span)) => shows_span(case, Answer::done(0), span),
        (Ok(_), None) => shows_span(case, Answer::from(Refusal::PlanExists), NO_SPAN),
        _ => false,
    }
}

// Whether the search for a crowded span gives this answer and this span.
pub(crate) fn shows_span(case: Case<'_>, answer: Answer, span: CrowdedSpan) -> bool {
    let found = crowd::crowded_span(case.day.slots, case.releases, case.deadlines);
    CrowdAnswer::from(found) == CrowdAnswer { answer, span }
}

// Whether pricing gives this answer.
pub(crate) fn priced(case: Case<'_>, answer: Answer, starts: &[u16]) -> bool {
    let given = claim::price(case.day, case.releases, case.deadlines, starts);
    Answer::from(given) == answer
}

// Whether pricing, ledger and slot records say of a claimed plan what direct counting says.
pub(crate) fn claimed(case: Case<'_>, starts: &[u16]) -> bool {
    let price = direct::judged(case, starts);
    priced(case, Answer::from(price), starts)
        && counted(case, price, starts)
        && slots(case, price, starts)
}

// Whether the ledger counts the slots as direct counting fills them.
fn counted(case: Case<'_>, price: Result<u16, Refusal>, starts: &[u16]) -> bool {
    let claimed = case.claimed(starts);
    let mut counts = Counts::default();
    if price.is_ok() {
        for slot in 0..case.day.slots {
            let count = match direct::fill(case, claimed, slot) {
                Fill::Before => &mut counts.before,
                Fill::Job(_) => &mut counts.job,
                Fill::Awake => &mut counts.awake,
                Fill::Asleep => &mut counts.asleep,
                Fill::After => &mut counts.after,
            };
            *count = count.wrapping_add(1);
        }
    }
    let found = ledger::ledger(case.day, case.releases, case.deadlines, starts);
    let answer = Answer::from(price.map(|_| 0));
    LedgerAnswer::from(found) == LedgerAnswer { answer, counts }
}

// Whether the records of all slots, and of the one after the day, are what direct counting says of a plan with this price.
fn slots(case: Case<'_>, price: Result<u16, Refusal>, starts: &[u16]) -> bool {
    let claimed = case.claimed(starts);
    (0..case.day.slots).all(|slot| {
        let fill = price.map(|_| direct::fill(case, claimed, slot));
        one_slot(case, starts, slot, fill)
    }) && one_slot(
        case,
        starts,
        case.day.slots,
        price.and(Err(Refusal::NoSuchSlot)),
    )
}

// Whether a record says what fills a slot; where nothing is shown, it has slot 0 and before.
fn one_slot(case: Case<'_>, starts: &[u16], slot: u16, fill: Result<Fill, Refusal>) -> bool {
    let found = ledger::slot(case.day, case.releases, case.deadlines, starts, slot);
    let held = fill.map_or(
        SlotFill {
            slot: 0,
            fill: Fill::Before,
        },
        |fill| SlotFill { slot, fill },
    );
    let answer = Answer::from(fill.map(|_| 0));
    SlotAnswer::from(found) == SlotAnswer { answer, held }
}

// Whether the choice between two claimed plans is what their prices say.
pub(crate) fn chosen(case: Case<'_>, own: &[u16], server: &[u16]) -> bool {
    let expected = winner(direct::judged(case, own), direct::judged(case, server));
    // Under a refusal no start, as a part of the notebook's own.
    let starts = match expected {
        Ok(1) => case.claimed(own),
        Ok(_) => case.claimed(server),
        Err(_) => &own[..0],
    };
    let given = choice::which(case.day, case.releases, case.deadlines, own, server);
    let chosen = choice::choose(case.day, case.releases, case.deadlines, own, server);
    given.map(u16::from) == expected && *chosen == *starts
}

// Which plan wins by the two prices: 1, the notebook's own, or 2, the server's.
fn winner(own: Result<u16, Refusal>, server: Result<u16, Refusal>) -> Result<u16, Refusal> {
    match (own, server) {
        (Err(Refusal::BadRow(_)), _) => own,
        (Err(_), Err(_)) => Err(Refusal::NeitherProper),
        (Ok(_), Err(_)) => Ok(1),
        (Ok(own), Ok(server)) if own <= server => Ok(1),
        _ => Ok(2),
    }
}
