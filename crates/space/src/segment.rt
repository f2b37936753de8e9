// Segments between positions whose coordinates lie within ±50,000, and the tests of them: exact, with no rounding.
// Vectors are arrays of three, whose bounds the calls ask for, as in `vector`.
ghost use Rattle.algebra.specs.Vector.{vector, Inside, Small};
ghost use Rattle.algebra.specs.Segments.{Meets, OnlyCorner, On, EndOn, Part, Shared, Crossing};
ghost use Rattle.std.specs.Prelude.{◌≡◌, Decides};

use crate::vector::{cross, difference, dot};

// A segment between two positions in range, which may be one point.
#[derive(Clone, Copy)]
pub struct Segment {
    pub from: [i32; 3],
    pub to: [i32; 3],
    pub ghost from_inside: { Inside (vector from) },
    pub ghost to_inside: { Inside (vector to) },
}

// Whether s lies from 0 to d.
fn is_part(d: i128, s: i128) -> bool
    ensures { Decides result (Part d s) }
{
    (0..=d).contains(&s)
}

// Whether two lines at this height above each other meet, at a point that is s of d along one segment and t of d along the other.
fn is_shared(d: i128, height: i128, s: i128, t: i128) -> bool
    ensures { Decides result (Shared d height s t) }
{
    height == 0 && is_part(d, s) && is_part(d, t)
}

// Whether two segments that are not parallel, along u and v, share a point, where the second starts w from the first.
fn crosses(u: [i64; 3], v: [i64; 3], w: [i64; 3]) -> bool
    requires first { Small (vector u) }
    requires second { Small (vector v) }
    requires apart { Small (vector w) }
    ensures { Decides result (Crossing (vector u) (vector v) (vector w)) }
{
    let n = cross(u, v);
    let along_u = cross(w, v);
    let along_v = cross(w, u);
    is_shared(dot(n, n), dot(w, n), dot(along_u, n), dot(along_v, n))
}

impl Segment {
    // The segment from one position to another.
    pub fn new(from: [i32; 3], to: [i32; 3]) -> Segment
        requires from { Inside (vector from) }
        requires to { Inside (vector to) }
        ensures { (result.from ≡ from) × (result.to ≡ to) }
    {
        Segment { from, to }
    }

    // Whether a position lies on the segment.
    fn has(self, p: [i32; 3]) -> bool
        requires { Inside (vector p) }
        ensures { Decides result (On (vector p) (vector self.from) (vector self.to)) }
    {
        let f = difference(p, self.from);
        let g = difference(p, self.to);
        cross(f, g) == [0; 3] && dot(f, g) <= 0
    }

    // Whether an end of one of the two segments lies on the other. Of the four ends the end of this one need not be asked.
    fn touches(self, other: Segment) -> bool
        ensures { Decides result (EndOn (vector self.from) (vector self.to) (vector other.from) (vector other.to)) }
    {
        other.has(self.from) || self.has(other.from) || self.has(other.to)
    }

    // Whether the two segments share a point.
    pub fn meets(self, other: Segment) -> bool
        ensures { Decides result (Meets (vector self.from) (vector self.to) (vector other.from) (vector other.to)) }
    {
        let u = difference(self.to, self.from);
        let v = difference(other.to, other.from);
        if cross(u, v) == [0; 3] {
            self.touches(other)
        } else {
            crosses(u, v, difference(other.from, self.from))
        }
    }

    // Whether this segment and the next, which begins where this one ends, share no point but that: they bend there, or go on straight.
    pub fn shares_only_its_end(self, next: Segment) -> bool
        requires { vector next.from ≡ vector self.to }
        ensures { Decides result (OnlyCorner (vector self.from) (vector self.to) (vector next.to)) }
    {
        let u = difference(self.to, self.from);
        let v = difference(next.to, next.from);
        cross(u, v) != [0; 3] || dot(u, v) > 0
    }
}
