// The cut list: what the hour leaves of a list whose plan is held. Releases and deadlines are two lists of numbers,
// as 01's number form has them and the public promises speak of them.
#![tactic(auto)]

ghost use Rattle.std.specs.Prelude.{◌≡◌, min};
ghost use Rattle.checks.specs.Check.{most_jobs};
ghost use Rattle.cutlist.specs.Cut.{is_done, raised, cut_release, cut_deadline};
ghost use Rattle.cutlist.specs.CutRows.{HoldsCut};

use day::at_or_zero;

// The windows of a cut list, one for each row, as the two columns that a planner takes.
#[derive(Drop)]
pub struct CutRows {
    pub releases: [u16; 40],
    pub deadlines: [u16; 40],
}

// A release, raised to the current slot where it is lower.
#[tactic(auto, unfolding(crate::specs::Cut::raised))]
pub fn raise(slot: u16, release: u16) -> u16
    ensures { result ≡ raised slot release }
{
    release.max(slot)
}

// Whether a job with this start is done.
fn is_done(slot: u16, start: u16) -> bool
    ensures { result ≡ is_done slot start }
{
    start < slot
}

// The release and the deadline of a cut list's row; two functions, since a done job's window is its slot by two rules.
#[tactic(auto, unfolding(crate::specs::Cut::cut_release))]
fn cut_release(slot: u16, start: u16, release: u16) -> u16
    ensures { result ≡ cut_release slot start release }
{
    if is_done(slot, start) {
        return start;
    }
    raise(slot, release)
}

#[tactic(auto, unfolding(crate::specs::Cut::cut_deadline))]
fn cut_deadline(slot: u16, start: u16, deadline: u16) -> u16
    ensures { result ≡ cut_deadline slot start deadline }
{
    if is_done(slot, start) {
        return start + 1;
    }
    deadline
}

// The windows of the cut list of the first `count` rows, at most 40 of them. A number that is missing is 0.
pub fn cut_rows(
    slot: u16,
    count: usize,
    releases: &[u16],
    deadlines: &[u16],
    starts: &[u16],
) -> CutRows
    ensures { HoldsCut slot (min count most_jobs) releases.now deadlines.now starts.now result }
{
    let mut cut = CutRows {
        releases: [0; 40],
        deadlines: [0; 40],
    };
    for row in 0..count.min(40) {
        let start = at_or_zero(starts, row);
        cut.releases[row] = cut_release(slot, start, at_or_zero(releases, row));
        cut.deadlines[row] = cut_deadline(slot, start, at_or_zero(deadlines, row));
    }
    cut
}
