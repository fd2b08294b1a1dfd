// The outline of a trace: its points, the first written again at the end, each with the segment to the next. Whoever adds up along a trace
// reads them here, without a remainder. Another start, a shift or a sign would change this file and nothing else.
ghost use Rattle.std.specs.Prelude.{◌≡◌, ◌+◌, ◌*◌, ◌/◌, ◌<◌, min, pos, length, get_or};
ghost use Rattle.trace.specs.Outline.{fair, fairly, corner, Outlined};

use crate::{Point, in_range, point_at};

// A point, and the segment from it to the next.
#[derive(Clone, Copy, Debug, PartialEq, Eq)]
pub struct Corner {
    pub x: i32,
    pub y: i32,
    pub dx: i32,
    pub dy: i32,
}

// What stands behind the last corner.
const NONE: Corner = Corner {
    x: 0,
    y: 0,
    dx: 0,
    dy: 0,
};

// As many corners as there are points, and the first point again, which has no segment. (An array of corners would be plainer. With it the
// table of `joining` takes 27 instructions a pair in place of 24, and misses its bar of speed.)
#[derive(Clone, Copy)]
pub struct Outline {
    pub x: [i32; 251],
    pub y: [i32; 251],
    pub dx: [i32; 251],
    pub dy: [i32; 251],
    // The number of points.
    pub count: usize,
}

impl Outline {
    // Corner `k`, and one of zeros behind the last.
    pub fn corner(&self, k: usize) -> Corner
        ensures { result ≡ corner self.now k }
    {
        if k < 251 {
            Corner {
                x: self.x[k],
                y: self.y[k],
                dx: self.dx[k],
                dy: self.dy[k],
            }
        } else {
            NONE
        }
    }
}

// Takes every slice. Of over 250 points the first 250 are read, and what is no coordinate reads 0, so that no sum can overflow; of an
// accepted trace all is read as it is.
pub fn outline_of(coords: &[i32]) -> Outline
    ensures { Outlined (fairly coords.now) result }
{
    let count = points_read(coords.len());
    let mut x = [0i32; 251];
    let mut y = [0i32; 251];
    let mut dx = [0i32; 251];
    let mut dy = [0i32; 251];
    for k in 0..count {
        let point = fair_point(coords, k);
        x[k] = point.x;
        y[k] = point.y;
    }
    let first_x = x[0];
    let first_y = y[0];
    x[count] = first_x;
    y[count] = first_y;
    // Each point is read once, and its segment is taken from what was read: two plain loops, of which a processor does many turns at a time.
    for k in 0..count {
        dx[k] = x[k + 1] - x[k];
        dy[k] = y[k + 1] - y[k];
    }
    Outline {
        x,
        y,
        dx,
        dy,
        count,
    }
}

// How many points are read of so many coordinates.
pub fn points_read(numbers: usize) -> usize
    ensures { result ≡ min (numbers / 2) 250 }
{
    (numbers / 2).min(250)
}

// Point `k`, where what is no coordinate reads 0.
fn fair_point(coords: &[i32], k: usize) -> Point
    requires { 2 * k + 1 < length coords.now }
    ensures { (result.x ≡ fair (get_or coords.now (2 * k) (pos 0))) × (result.y ≡ fair (get_or coords.now (2 * k + 1) (pos 0))) }
{
    let read = point_at(coords, k);
    Point {
        x: fair_of(read.x),
        y: fair_of(read.y),
    }
}

#[tactic(auto, unfolding(crate::specs::Outline::fair))]
fn fair_of(v: i32) -> i32
    ensures { result ≡ fair v }
{
    if in_range(v) { v } else { 0 }
}
