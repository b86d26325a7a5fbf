// The level of no jobs: what every span costs that no job stands in.
ghost use Rattle.std.specs.Prelude.{◌≡◌, ◌+◌, ◌<◌, ◌≤◌, length};
ghost use Rattle.day.specs.Far.{far_price};
ghost use Rattle.checks.specs.Check.{most_slots};
ghost use Rattle.engine.specs.Places.{Fits, places_for, layout_in};
ghost use Rattle.engine.specs.steps.Bands.{HoldsAlong, offset, BandsHold};

use day::Day;
use engine::Frame;

// What it costs from a point to a later one with no job between them: a far end costs a wake.
fn far_price(day: Day, from: u16, to: u16) -> u16
    requires { (day.slots ≤ most_slots) × (from ≤ to) × (to ≤ day.slots + 2) }
    ensures { result ≡ far_price day from to }
{
    if from == 0 || to == day.slots + 2 {
        day.power.wake
    } else {
        day.power.price(to - from)
    }
}

// Fills the band of no jobs that begins at `here`, from the point `from` on.
fn price_band(day: Day, points: usize, here: usize, from: usize, table: &mut [u16])
    requires { (day.slots ≤ most_slots) × (points ≡ day.slots + 3) × (from < points) × (here + points ≤ length table.old) }
    ensures { HoldsAlong (offset here) from points (far_price day from) table.old table.new }
{
    for e in from..points {
        table[here + e] = far_price(day, from as u16, e as u16);
    }
}

// Fills the level of no jobs.
pub(crate) fn price_level(day: Day, frame: Frame, table: &mut [u16])
    requires fits { Fits (layout_in frame) }
    requires slots_le_most_slots { (day.slots ≤ most_slots) × (frame.shape.points ≡ day.slots + 3) × (frame.shape.points ≤ length frame.begins.now) × (places_for (layout_in frame) 0 ≤ length table.old) }
    ensures { BandsHold (layout_in frame.entry) 0 0 frame.entry.shape.points (far_price day) table.old table.new }
{
    let points = frame.shape.points;
    for from in 0..points {
        let here = frame.band_of(0, from);
        price_band(day, points, here, from, &mut *table);
    }
}
