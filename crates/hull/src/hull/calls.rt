// Making, entering and clearing. No call asks anything of its caller, and none but `new` can lack memory.
ghost use Rattle.hull.specs.Law.{CountsFromEvery, Law, Entered};
ghost use Rattle.hull.specs.Meaning.{faces_of};
ghost use Rattle.solid.specs.Corners.{ring_of};
ghost use Rattle.solid.specs.Entering.{EnterSays};
ghost use Rattle.solid.specs.Roll.{clear as clearing, Rolls};
ghost use Rattle.std.specs.Prelude.{◌≡◌, [], ◌∷◌, ◌++◌, IfOk, Ok};

use crate::hull::Hull;
use fault::shape::ShapeFault;
use index::index::Index;
use ring::ring::Ring;
use solid::Corner;
use space::vector::{dot, plus, wide};
use std::alloc::{AllocError, Global};

impl Hull {
    // An empty hull: the roll of no calls. It reserves all its room, and may answer want of memory and nothing else.
    pub fn new(heap: Global) -> Result<Hull, AllocError>
        ensures { IfOk result (λ h. (faces_of h ≡ []) × Rolls [] (faces_of h) × CountsFromEvery h) }
    {
        let index = Index::new(heap)?;
        Ok(Hull {
            index,
            open_edges: 0,
            volume: 0,
            edge_sum: [0; 3],
        })
    }

    // Enters a face. The answer is exactly that of the first test that fails, and a fault leaves the hull as it was.
    pub fn enter(&mut self, ring: &[Corner]) -> Result<(), ShapeFault>
        ensures { Entered (ring_of ring.now) self.old self.new result }
    {
        let tested = self.index.test(ring)?;
        self.put(&tested);
        Ok(())
    }

    // Puts in a ring that has passed the tests, and brings the counts up to date.
    fn put(&mut self, ring: &Ring<'_>)
        requires { EnterSays (faces_of self.old) (ring_of ring.now.corners.now) (Ok tt) }
        ensures { faces_of self.new ≡ faces_of self.old ++ ring_of ring.now.corners.now ∷ [] }
    {
        let reverses = self.index.reverses(ring.corners);
        let height = dot(wide(ring.corners[0].position), ring.normal);
        self.index.put(ring);
        self.open_edges = self.open_edges + ring.corners.len() - 2 * reverses;
        // It fits, as is proved; try_from would ask what to do where it did not.
        self.volume += height as i64;
        // Bound first, as in the sum of D.
        let sum = plus(self.edge_sum, ring.normal);
        self.edge_sum = sum;
    }

    // Empties the hull, and keeps its room.
    pub fn clear(&mut self)
        ensures faces { faces_of self.new ≡ [] }
        ensures law { Law clearing self.old self.new }
    {
        self.index.clear();
        self.open_edges = 0;
        self.volume = 0;
        self.edge_sum = [0; 3];
    }
}
