// The square layout: every band of a level has a place for each point.
ghost use Rattle.std.specs.Prelude.{◌≡◌, ◌*◌, ◌≤◌, length};
ghost use Rattle.day.specs.Changed.{FirstFilled};
ghost use Rattle.engine.specs.Places.{square_begins, most_points};

use crate::Shape;

// The shape of a square table with `points` points.
pub fn shape_of(points: usize, none: u16) -> Shape
    requires { points ≤ most_points }
    ensures { (result.points ≡ points) × (result.level ≡ points * points) × (result.none ≡ none) }
{
    Shape {
        points,
        level: points * points,
        none,
    }
}

// Says where the bands of a square with `points` points begin.
pub fn begin_bands(points: usize, begins: &mut [usize])
    requires { (points ≤ most_points) × (points ≤ length begins.old) }
    ensures { FirstFilled points (λ s y. y ≡ square_begins points s) begins.old begins.new }
{
    for point in 0..points {
        begins[point] = point * points;
    }
}
