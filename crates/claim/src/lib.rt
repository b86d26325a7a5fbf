// Claimed plans: how a plan for a list is judged, and what it costs. Releases and deadlines are two lists of numbers, as 01's number form has
// them and the public promises speak of them.
#![tactic(auto)]

mod check;
pub mod slots;

ghost use Rattle.day.specs.Windows.{windows};
ghost use Rattle.checks.specs.Answer.{answered};
ghost use Rattle.checks.specs.Check.{most_jobs, most_slots, ListCheck, GoodRows, Accepted};
ghost use Rattle.claim.specs.Claim.{PricePromise};
ghost use Rattle.claim.specs.Rows.{claimed, Judged};
ghost use Rattle.claim.specs.steps.Starts.{StartsJudged, PricedStarts};

use checks::outcome::Refusal;
use day::Day;

// Judges the starts for a list that has passed codes 1 to 4, and puts the rows in their slots.
fn judge_starts(releases: &[u16], deadlines: &[u16], starts: &[u16]) -> Result<[u16; 96], Refusal>
    requires { GoodRows most_jobs most_slots (windows releases.now deadlines.now) }
    ensures { StartsJudged (windows releases.now deadlines.now) starts.now (claimed result) }
{
    check::check_starts(releases, deadlines, starts)?;
    Ok(slots::rows_by_slot(&starts[..releases.len()]))
}

// Judges a claimed plan as pricing, ledger and slot record do: codes 1 to 5, 14 over all rows, then 15. Of an accepted plan, the row,
// counted from 1, that stands in each slot; 0 where none does.
pub fn judge(
    day: Day,
    releases: &[u16],
    deadlines: &[u16],
    starts: &[u16],
) -> Result<[u16; 96], Refusal>
    ensures { Judged (ListCheck day (windows releases.now deadlines.now)) (windows releases.now deadlines.now) starts.now (claimed result) }
{
    checks::check_list(day, releases, deadlines)?;
    judge_starts(releases, deadlines, starts)
}

// Prices the starts for a list that has passed codes 1 to 4.
fn price_starts(
    day: Day,
    releases: &[u16],
    deadlines: &[u16],
    starts: &[u16],
) -> Result<u16, Refusal>
    requires { Accepted day (windows releases.now deadlines.now) }
    ensures { PricedStarts day (windows releases.now deadlines.now) starts.now (answered result) }
{
    let rows = judge_starts(releases, deadlines, starts)?;
    let slots = usize::from(day.slots);
    Ok(slots::cost(day.power, &rows[..slots]))
}

// Prices a claimed plan.
pub fn price(day: Day, releases: &[u16], deadlines: &[u16], starts: &[u16]) -> Result<u16, Refusal>
    ensures { PricePromise day (windows releases.now deadlines.now) starts.now (answered result) }
{
    checks::check_list(day, releases, deadlines)?;
    price_starts(day, releases, deadlines, starts)
}
