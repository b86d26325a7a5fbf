// Filling a table, level by level and band by band.
ghost use Rattle.std.specs.Prelude.{◌≡◌, ℕ, ◌+◌, ◌<◌, ◌≤◌, min, length};
ghost use Rattle.day.specs.Windows.{at};
ghost use Rattle.day.specs.Changed.{itself};
ghost use Rattle.engine.specs.Places.{band, place, places_for, layout_in};
ghost use Rattle.engine.specs.Lent.{lent_in, Prepared};
ghost use Rattle.engine.specs.Filled.{AllNone, Small, Filled};
ghost use Rattle.engine.specs.steps.Bands.{HoldsAlong, lowered};
ghost use Rattle.engine.specs.steps.OneMore.{more_of, more_in, value_with, Fillable, BandAdded, BandsAdded};

use crate::{Loan, NextJob, bands};

// The lesser of two numbers of 15 bits. They are compared as signed numbers, since of those a processor finds many lessers at once.
fn lesser(a: u16, b: u16) -> u16
    requires { (a < 32768) × (b < 32768) }
    ensures { result ≡ min a b }
{
    if (a as i16) < (b as i16) { a } else { b }
}

// Lowers each sum from `lo` to `hi` to the base plus what a band of the table holds there, where that is less.
fn lower(sums: &mut [u16], table: &[u16], band: usize, lo: usize, hi: usize, base: u16)
    requires lo_le_hi { (lo ≤ hi) × (hi ≤ length sums.old) × (band + hi ≤ length table.now) }
    requires by_index { (e : ℕ) → lo ≤ e → e < hi → (base + at table.now (band + e) < 32768) × (at sums.old e < 32768) }
    ensures { HoldsAlong itself lo hi (lowered sums.old table.now band base) sums.old sums.new }
{
    for e in lo..hi {
        sums[e] = lesser(base + table[band + e], sums[e]);
    }
}

impl NextJob<'_, '_> {
    // Lowers the sums after `split` to those of the two sides of a split there, where these are less.
    fn add_split(self, from: usize, split: usize, table: &[u16], sums: &mut [u16])
        requires from_le_split { (from ≤ split) × (split + 1 < self.frame.shape.points) × (self.frame.shape.points ≤ length self.frame.begins.now) × (self.frame.shape.points ≤ length sums.old) }
        requires split_in_bounds { (place (layout_in self.frame) self.job from split < length table.now) × (band (layout_in self.frame) self.job (split + 1) + self.frame.shape.points ≤ length table.now) }
        requires by_index { (e : ℕ) → split + 1 ≤ e → e < self.frame.shape.points → (at table.now (place (layout_in self.frame) self.job from split) + at table.now (place (layout_in self.frame) self.job (split + 1) e) < 32768) × (at sums.old e < 32768) }
        ensures { HoldsAlong itself (split + 1) self.entry.frame.shape.points (lowered sums.old table.now (band (layout_in self.entry.frame) self.entry.job (split + 1)) (at table.now (place (layout_in self.entry.frame) self.entry.job from split))) sums.old sums.new }
    {
        let next = split + 1;
        let left = self.frame.value_at(table, self.job, from, split);
        let right = self.frame.band_of(self.job, next);
        lower(sums, table, right, next, self.frame.shape.points, left);
    }

    // Lowers a band of sums that says "none" by each place at which the job may split a span that begins at `from`.
    fn add_splits(self, from: usize, table: &[u16], sums: &mut [u16])
        requires fillable { Fillable (more_in self) table.now }
        requires from_le_release { (from ≤ self.release) × AllNone self.frame.shape sums.old }
        ensures { HoldsAlong itself (self.entry.release + 1) self.entry.frame.shape.points (value_with (more_in self.entry) table.now from) sums.old sums.new }
    {
        for split in self.release..self.deadline {
            if self.job < usize::from(self.marks[split]) {
                self.add_split(from, split, table, &mut *sums);
            }
        }
    }

    // Fills the band of the jobs up to this one from a point on that isn't after its release: to the release the level below has the value,
    // after it the sums. The band of sums says "none" before and after.
    fn sum_band(self, from: usize, table: &mut [u16], sums: &mut [u16])
        requires fillable { Fillable (more_in self) table.old }
        requires from_le_release { (from ≤ self.release) × AllNone self.frame.shape sums.old }
        ensures { (sums.new ≡ sums.old) × BandAdded (more_in self.entry) from table.old table.new }
    {
        let shape = self.frame.shape;
        let after = self.release + 1;
        let here = self.frame.band_of(self.job + 1, from);
        self.frame.copy_band(&mut *table, self.job, from, after);
        self.add_splits(from, &*table, &mut *sums);
        bands::unload(table, here, sums, after, shape.points, shape.none);
    }

    // Fills the bands from the points up to the release of the job.
    fn sum_bands(self, table: &mut [u16], sums: &mut [u16])
        requires fillable { Fillable (more_in self) table.old }
        requires all_none { AllNone self.frame.shape sums.old }
        ensures { (sums.new ≡ sums.old) × BandsAdded (more_in self.entry) (self.entry.release + 1) table.old table.new }
    {
        for from in 0..self.release + 1 {
            self.sum_band(from, &mut *table, &mut *sums);
        }
    }

    // Fills the level of the jobs up to this one. A span that begins after its release has the value of the level below.
    fn fill_level(self, table: &mut [u16], sums: &mut [u16])
        requires fillable { Fillable (more_in self) table.old }
        requires all_none { AllNone self.frame.shape sums.old }
        ensures { (sums.new ≡ sums.old) × BandsAdded (more_in self.entry) self.entry.frame.shape.points table.old table.new }
    {
        self.sum_bands(&mut *table, sums);
        self.frame.copy_level(table, self.job, self.release + 1);
    }
}

impl Loan<'_, '_, '_, '_> {
    // Fills the levels of one job up to `count` jobs over the level of no jobs. `sums` is a band that says "none", before and after.
    pub fn fill(self, count: usize, table: &mut [u16], sums: &mut [u16])
        requires prepared { Prepared (lent_in self) count }
        requires count_in_bounds { (places_for (layout_in self.frame) count ≤ length table.old) × AllNone self.frame.shape sums.old }
        requires small { Small (layout_in self.frame) self.frame.shape.none 0 table.old }
        ensures { (sums.new ≡ sums.old) × Filled (lent_in self.entry) count table.old table.new }
    {
        for job in 0..count {
            self.next_job(job).fill_level(&mut *table, &mut *sums);
        }
    }
}
