// A ring whose corners have passed their tests, with its D, and the tests of its shape.
ghost use Rattle.std.specs.Prelude.{◌≡◌, Decides};
ghost use Rattle.algebra.specs.Vector.{vector, Inside, Large};
ghost use Rattle.ring.specs.Places.{Clear, edge_of};
ghost use Rattle.solid.proofs.Props.{tidy_one};
ghost use Rattle.solid.specs.Corners.{corner_of, ring_of};
ghost use Rattle.solid.specs.Faces.{D as D_of};
ghost use Rattle.solid.specs.Rules.{Tidy, Planar, Simple};

use crate::edges::edges;
use solid::Corner;
use space::segment::Segment;
use space::vector::{cross, difference, dot, plus, wide};

#[derive(Clone, Copy)]
pub struct Ring<'a> {
    pub corners: &'a [Corner],
    // D of the ring, as `new` computes it: an array of three, as a rule of the project asks
    pub normal: [i64; 3],
    pub ghost tidy: { Tidy (ring_of corners.now) } by { tidy_one (ring_of corners.now) },
    pub ghost is_normal: { vector normal ≡ D_of (ring_of corners.now) },
    pub ghost large: { Large (vector normal) },
}

// Whether two edges, which start at different corners, share no point but a corner that ends one and starts the other. A corner has any position, so that
// these are in range is asked, as is what a tidy ring has of two of its edges.
fn is_clear(e: (Corner, Corner), f: (Corner, Corner)) -> bool
    requires first { (Inside (vector e.0.position)) × (Inside (vector e.1.position)) }
    requires second { (Inside (vector f.0.position)) × (Inside (vector f.1.position)) }
    requires starts { corner_of e.0 ≡ corner_of f.0 → ⊥ }
    requires there { e.1.key ≡ f.0.key → corner_of e.1 ≡ corner_of f.0 }
    requires back { f.1.key ≡ e.0.key → corner_of f.1 ≡ corner_of e.0 }
    ensures { Decides result (Clear (edge_of e) (edge_of f)) }
{
    let a = Segment::new(e.0.position, e.1.position);
    let b = Segment::new(f.0.position, f.1.position);
    if e.1.key == f.0.key {
        a.shares_only_its_end(b)
    } else if f.1.key == e.0.key {
        b.shares_only_its_end(a)
    } else {
        !a.meets(b)
    }
}

impl<'a> Ring<'a> {
    // The ring of these corners, with D: the sum of the vector products of its edges' ends. A term lies within ±5 · 10^9, and the sum of 64 within ±3.2 · 10^11.
    pub fn new(corners: &'a [Corner]) -> Ring<'a>
        requires { Tidy (ring_of corners.now) }
        ensures { result.corners.now ≡ corners.now }
    {
        let mut normal = [0; 3];
        for (from, to) in edges(corners) {
            let a = wide(from.position);
            let b = wide(to.position);
            // Bound first: the check proves nothing of an array that a call returns where it is assigned straight.
            let more = plus(normal, cross(a, b));
            normal = more;
        }
        Ring { corners, normal }
    }

    // Whether D is not 0 and every corner lies in the plane through the first one that D is normal to.
    pub fn is_planar(&self) -> bool
        ensures { Decides result (Planar (ring_of self.now.corners.now)) }
    {
        if self.normal == [0; 3] {
            return false;
        }
        for corner in self.corners {
            let height = dot(
                difference(corner.position, self.corners[0].position),
                self.normal,
            );
            if height != 0 {
                return false;
            }
        }
        true
    }

    // Whether the ring is free of crossings: each pair of edges is tested once, up to the first that cross.
    // A rule of the project asks here for nested loops that a label leaves, and so for the flag.
    pub fn is_simple(&self) -> bool
        ensures { Decides result (Simple (ring_of self.now.corners.now)) }
    {
        let mut simple = true;
        'pairs: for (i, e) in edges(self.corners).enumerate() {
            for f in edges(self.corners).take(i) {
                if !is_clear(f, e) {
                    simple = false;
                    break 'pairs;
                }
            }
        }
        simple
    }
}
