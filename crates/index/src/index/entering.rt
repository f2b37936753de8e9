// The tests of entering a ring, each decided exactly.
ghost use Rattle.std.specs.Prelude.{◌≡◌, ◌+◌, ◌≤◌, [], ◌∷◌, ◌++◌, Decides, MatchOption, ◌≢◌};
ghost use Rattle.algebra.specs.Vector.{vector};
ghost use Rattle.index.specs.Meaning.{faces_of};
ghost use Rattle.tracking.specs.Tests.{Apart, AgreesWith, FirstRepeated, Tested};
ghost use Rattle.solid.specs.Corners.{corner_of, ring_of};
ghost use Rattle.solid.specs.Entering.{Allowed, AllAllowed, FirstMisfit};
ghost use Rattle.solid.specs.Rules.{Valid, Fresh, Limits, key_count_of};

use crate::index::Index;
use crate::index::limits::{EDGES, FACES, KEYS, LEAST_CORNERS, MOST_CORNERS};
use fault::shape::ShapeFault;
use ring::edges::edges;
use ring::ring::Ring;
use solid::Corner;
use space::vector::is_inside;

// Whether a corner meets its rules alone: its key is at least 1, and its position in range.
fn is_valid(c: Corner) -> bool
    ensures { Decides result (Valid (corner_of c)) }
{
    c.key >= 1 && is_inside(c.position)
}

// Whether two corners have different keys and different positions.
fn differs(b: Corner, c: Corner) -> bool
    ensures { Decides result ((b.key ≢ c.key) × (vector b.position ≢ vector c.position)) }
{
    b.key != c.key && b.position != c.position
}

// Whether the corner has another key and another position than each one before it.
fn is_apart(before: &[Corner], c: Corner) -> bool
    ensures { Decides result (Apart (ring_of before.now) (corner_of c)) }
{
    for b in before {
        if !differs(*b, c) {
            return false;
        }
    }
    true
}

impl Index {
    // Whether the corner agrees with the faces: its key has this position there, or neither is there.
    fn agrees(&self, c: Corner) -> bool
        ensures { Decides result (AgreesWith (faces_of self.now) (corner_of c)) }
    {
        match self.corners.positions.find(&c.key) {
            Some(position) => position == c.position,
            None => self.corners.keys.find(&c.position).is_none(),
        }
    }

    // Whether the corner meets its rules alone, against the faces and against the corners before it.
    fn is_allowed(&self, before: &[Corner], c: Corner) -> bool
        ensures { Decides result (Allowed (faces_of self.now) (ring_of before.now) (corner_of c)) }
    {
        is_valid(c) && is_apart(before, c) && self.agrees(c)
    }

    // The key of the first corner that breaks a rule.
    fn misfit(&self, ring: &[Corner]) -> Option<u32>
        ensures { MatchOption result (AllAllowed (faces_of self.now) [] (ring_of ring.now)) (λ k. FirstMisfit (faces_of self.now) [] (ring_of ring.now) k) }
    {
        for (i, c) in ring.iter().enumerate() {
            if !self.is_allowed(&ring[..i], *c) {
                return Some(c.key);
            }
        }
        None
    }

    // The keys of the ring's first directed edge that the faces have.
    fn repeated(&self, ring: &[Corner]) -> Option<(u32, u32)>
        requires { AllAllowed (faces_of self.now) [] (ring_of ring.now) }
        ensures { MatchOption result (Fresh (faces_of self.now) (ring_of ring.now)) (λ p. FirstRepeated (faces_of self.now) (ring_of ring.now) p) }
    {
        for (a, b) in edges(ring) {
            let keys = (a.key, b.key);
            if self.edges.find(&keys).is_some() {
                return Some(keys);
            }
        }
        None
    }

    // How many keys the ring brings that the faces have not.
    fn new_keys(&self, ring: &Ring<'_>) -> usize
        ensures { (key_count_of (faces_of self.now ++ ring_of ring.now.corners.now ∷ []) ≡ key_count_of (faces_of self.now) + result) × (result ≤ 64) }
    {
        ring.corners
            .iter()
            .filter(|c| self.corners.positions.find(&c.key).is_none())
            .count()
    }

    // Whether the three limits still hold with this ring.
    fn has_room(&self, ring: &Ring<'_>) -> bool
        ensures { Decides result (Limits (faces_of self.now ++ ring_of ring.now.corners.now ∷ [])) }
    {
        self.faces.len() < FACES
            && self.faces.corner_count() + ring.corners.len() <= EDGES
            && self.corners.positions.len() + self.new_keys(ring) <= KEYS
    }

    // The tests in order: the ring with its D, or the fault of the first test that fails.
    pub fn test<'a>(&self, corners: &'a [Corner]) -> Result<Ring<'a>, ShapeFault>
        ensures { Tested (faces_of self.now) corners.now result }
    {
        let face = self.faces.len() + 1;
        if corners.len() < LEAST_CORNERS || corners.len() > MOST_CORNERS {
            return Err(ShapeFault::CornerCount { face });
        }
        if let Some(key) = self.misfit(corners) {
            return Err(ShapeFault::Corner { face, key });
        }
        let ring = Ring::new(corners);
        if !ring.is_planar() {
            return Err(ShapeFault::NotPlanar { face });
        }
        if !ring.is_simple() {
            return Err(ShapeFault::Crossing { face });
        }
        if let Some((from, to)) = self.repeated(corners) {
            return Err(ShapeFault::EdgeTwice { face, from, to });
        }
        if !self.has_room(&ring) {
            return Err(ShapeFault::Full { face });
        }
        Ok(ring)
    }
}
