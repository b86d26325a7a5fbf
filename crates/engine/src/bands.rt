// The places of a table: where a band begins, what stands at a place, and copying from band to band.
ghost use Rattle.std.specs.Prelude.{◌≡◌, ◌+◌, ◌<◌, ◌≤◌, length};
ghost use Rattle.day.specs.Windows.{at};
ghost use Rattle.day.specs.Changed.{itself};
ghost use Rattle.engine.specs.Places.{band, place, layout_in};
ghost use Rattle.engine.specs.steps.OneMore.{Copyable};
ghost use Rattle.engine.specs.steps.Bands.{HoldsAlong, offset, along, always, Disjoint, BandsHold};

use crate::Frame;

impl Frame<'_> {
    // What lies before the band of the lowest `jobs` jobs and the point `from`.
    #[tactic(auto, unfolding(crate::specs::Places::band))]
    pub fn band_of(self, jobs: usize, from: usize) -> usize
        requires { (from < length self.begins.now) × (band (layout_in self) jobs from < 18446744073709551616) }
        ensures { result ≡ band (layout_in self.entry) jobs from }
    {
        jobs * self.shape.level + self.begins[from]
    }

    // What stands for the lowest `jobs` jobs and the span from `from` to `to`.
    pub fn value_at(self, table: &[u16], jobs: usize, from: usize, to: usize) -> u16
        requires { (from < length self.begins.now) × (place (layout_in self) jobs from to < length table.now) }
        ensures { result ≡ at table.now (place (layout_in self.entry) jobs from to) }
    {
        table[self.band_of(jobs, from) + to]
    }

    // Copies the band of the lowest `jobs` jobs from the point `from`, up to `hi`, to the next level.
    pub(crate) fn copy_band(self, table: &mut [u16], jobs: usize, from: usize, hi: usize)
        requires copyable { Copyable (layout_in self) (length self.begins.now) jobs table.old }
        requires from_le_hi { (from ≤ hi) × (hi ≤ self.shape.points) × (from < self.shape.points) }
        ensures { HoldsAlong (place (layout_in self.entry) (jobs + 1) from) from hi (along table.old (band (layout_in self.entry) jobs from)) table.old table.new }
    {
        let below = self.band_of(jobs, from);
        let here = self.band_of(jobs + 1, from);
        copy(table, below, here, from, hi);
    }

    // Copies the bands of the lowest `jobs` jobs from the point `first` on to the next level.
    pub(crate) fn copy_level(self, table: &mut [u16], jobs: usize, first: usize)
        requires copyable { Copyable (layout_in self) (length self.begins.now) jobs table.old }
        requires first_le_points { first ≤ self.shape.points }
        ensures { BandsHold (layout_in self.entry) (jobs + 1) first self.entry.shape.points (λ s. along table.old (band (layout_in self.entry) jobs s)) table.old table.new }
    {
        let points = self.shape.points;
        for from in first..points {
            self.copy_band(&mut *table, jobs, from, points);
        }
    }
}

// Copies the places `lo` to `hi` of one band to another.
fn copy(table: &mut [u16], from: usize, to: usize, lo: usize, hi: usize)
    requires { (lo ≤ hi) × (from + hi ≤ length table.old) × (to + hi ≤ length table.old) × Disjoint from to lo hi }
    ensures { HoldsAlong (offset to) lo hi (along table.old from) table.old table.new }
{
    // a loop, since `copy_within` takes longer for runs as short as these
    for e in lo..hi {
        table[to + e] = table[from + e];
    }
}

// Moves the places `lo` to `hi` of a finished band into the table, and leaves a number behind in each.
pub(crate) fn unload(
    table: &mut [u16],
    to: usize,
    finished: &mut [u16],
    lo: usize,
    hi: usize,
    behind: u16,
)
    requires { (lo ≤ hi) × (hi ≤ length finished.old) × (to + hi ≤ length table.old) }
    ensures { HoldsAlong (offset to) lo hi (at finished.old) table.old table.new × HoldsAlong itself lo hi (always behind) finished.old finished.new }
{
    // one loop over both, since `copy_from_slice` and `fill` take longer for runs as short as these
    for e in lo..hi {
        table[to + e] = finished[e];
        finished[e] = behind;
    }
}
