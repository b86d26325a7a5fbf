// Judging the starts of a claimed plan, for a list that has passed codes 1 to 4; releases and deadlines are two lists, as in lib.rt.
ghost use Rattle.std.specs.Prelude.{◌≤◌, length};
ghost use Rattle.day.specs.Windows.{windows};
ghost use Rattle.checks.specs.Answer.{checked};
ghost use Rattle.checks.specs.Refusal.{◌then◌, Passed};
ghost use Rattle.checks.specs.Check.{most_jobs, most_slots, GoodRows};
ghost use Rattle.checks.specs.steps.FirstIn.{FirstIn};
ghost use Rattle.claim.specs.Claim.{OutsideWindow, ApartCheck, StartsCheck};

use checks::outcome::Refusal;
use day::at_or_zero;

// The first row whose claimed start is outside its window, counted from 0.
fn first_outside(releases: &[u16], deadlines: &[u16], starts: &[u16]) -> Option<usize>
    ensures { FirstIn (length releases.now) (OutsideWindow (windows releases.now deadlines.now) starts.now) result }
{
    for (row, release) in releases.iter().enumerate() {
        let start = at_or_zero(starts, row);
        if start < *release || at_or_zero(deadlines, row) <= start {
            return Some(row);
        }
    }
    None
}

// Refuses the first two rows that are claimed to start together; the first clash leaves both loops by the label.
fn check_apart(starts: &[u16]) -> Result<(), Refusal>
    requires { length starts.now ≤ most_jobs }
    ensures { (ApartCheck (length starts.now) starts.now then Passed) (checked result) }
{
    let mut clash: Option<(usize, usize)> = None;
    'rows: for row in 0..starts.len() {
        for partner in row + 1..starts.len() {
            if starts[row] == starts[partner] {
                clash = Some((row, partner));
                break 'rows;
            }
        }
    }
    match clash {
        Some((row, partner)) => Err(Refusal::SameStart((row + 1) as u16, (partner + 1) as u16)),
        None => Ok(()),
    }
}

// Codes 5, 14 and 15, in this order.
pub(crate) fn check_starts(
    releases: &[u16],
    deadlines: &[u16],
    starts: &[u16],
) -> Result<(), Refusal>
    requires { GoodRows most_jobs most_slots (windows releases.now deadlines.now) }
    ensures { (StartsCheck (windows releases.now deadlines.now) starts.now then Passed) (checked result) }
{
    let count = releases.len();
    if starts.len() < count {
        return Err(Refusal::FewStarts);
    }
    if let Some(row) = first_outside(releases, deadlines, starts) {
        return Err(Refusal::OutsideWindow((row + 1) as u16));
    }
    check_apart(&starts[..count])
}
