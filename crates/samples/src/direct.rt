// What documents 01 and 02 say of a plan and of a crowded span, counted directly: each function looks at the rows anew, and none uses the
// library's ways.
use crate::case::Case;
use checks::outcome::Refusal;
use crowd::CrowdedSpan;
use day::at_or_zero;
use ledger::Fill;

// What pricing answers for a day with slots and a wake cost within the limits.
pub(crate) fn judged(case: Case<'_>, starts: &[u16]) -> Result<u16, Refusal> {
    let claimed = case.claimed(starts);
    if let Some(row) = bad_row(case) {
        return Err(Refusal::BadRow(row));
    }
    if claimed.len() < case.count {
        return Err(Refusal::FewStarts);
    }
    if let Some(row) = row_outside(case, claimed) {
        return Err(Refusal::OutsideWindow(row));
    }
    if let Some((row, partner)) = same_start(claimed) {
        return Err(Refusal::SameStart(row, partner));
    }
    Ok(cost(case.day.power.wake, claimed))
}

// The first row with r ≥ d or d > T, counted from 1.
fn bad_row(case: Case<'_>) -> Option<u16> {
    (0..case.count)
        .find(|row| {
            let deadline = at_or_zero(case.deadlines, *row);
            at_or_zero(case.releases, *row) >= deadline || deadline > case.day.slots
        })
        .map(from_one)
}

// The first row that starts outside its window, counted from 1.
fn row_outside(case: Case<'_>, starts: &[u16]) -> Option<u16> {
    (0..case.count)
        .find(|row| {
            let start = at_or_zero(starts, *row);
            start < at_or_zero(case.releases, *row) || start >= at_or_zero(case.deadlines, *row)
        })
        .map(from_one)
}

// The first row that starts with a later row, and the first of those; both counted from 1.
fn same_start(starts: &[u16]) -> Option<(u16, u16)> {
    starts.iter().enumerate().find_map(|(row, start)| {
        let partner = starts
            .iter()
            .skip(row + 1)
            .position(|other| other == start)?;
        Some((from_one(row), from_one(row + 1 + partner)))
    })
}

// A row as an answer counts it, from 1.
fn from_one(row: usize) -> u16 {
    u16::try_from(row).map_or(u16::MAX, |row| row.saturating_add(1))
}

// The cost: for each job that has one before it, the price of the empty slots between the two.
fn cost(wake: u16, starts: &[u16]) -> u16 {
    starts
        .iter()
        .filter_map(|start| Some(start.wrapping_sub(since(starts, *start)?)))
        .fold(0, |cost, empty: u16| cost.wrapping_add(empty.min(wake)))
}

// The slot after the latest job before a slot.
fn since(starts: &[u16], slot: u16) -> Option<u16> {
    let before = starts.iter().filter(|start| **start < slot).max()?;
    Some(before.saturating_add(1))
}

// The earliest job after a slot. A line may have more starts than jobs; of those, 65,535 stands for no slot.
fn next(starts: &[u16], slot: u16) -> Option<u16> {
    let later = starts.iter().copied().filter(|start| *start > slot);
    later.min().filter(|start| *start < u16::MAX)
}

// What fills a slot of a proper plan. A gap of exactly L slots is awake.
pub(crate) fn fill(case: Case<'_>, starts: &[u16], slot: u16) -> Fill {
    if let Some(row) = starts.iter().position(|start| *start == slot) {
        return Fill::Job(from_one(row));
    }
    match (since(starts, slot), next(starts, slot)) {
        (None, _) => Fill::Before,
        (_, None) => Fill::After,
        (Some(since), Some(next)) if next.wrapping_sub(since) <= case.day.power.wake => Fill::Awake,
        _ => Fill::Asleep,
    }
}

// The first crowded span of a walk over all spans, by length and then by begin.
pub(crate) fn crowded(case: Case<'_>) -> Option<CrowdedSpan> {
    (1..=case.day.slots).find_map(|length| crowded_of(case, length))
}

// The first crowded span of a length, by begin.
fn crowded_of(case: Case<'_>, length: u16) -> Option<CrowdedSpan> {
    (0..case.day.slots).find_map(|begin| {
        let end = begin.wrapping_add(length);
        let jobs = inside(case, begin, end);
        (jobs > length && end <= case.day.slots).then_some(CrowdedSpan { begin, end, jobs })
    })
}

// How many rows have their whole window in the slots `begin` to `end` - 1.
fn inside(case: Case<'_>, begin: u16, end: u16) -> u16 {
    let rows = case.releases.iter().zip(case.deadlines);
    let jobs = rows
        .filter(|(release, deadline)| **release >= begin && **deadline <= end)
        .count();
    u16::try_from(jobs).unwrap_or(u16::MAX)
}
