// Making, growing and clearing an index, and its sizes.
ghost use Rattle.index.specs.Meaning.{faces_of};
ghost use Rattle.solid.specs.Corners.{ring_of};
ghost use Rattle.solid.specs.Entering.{EnterSays};
ghost use Rattle.solid.specs.Faces.{all_edges};
ghost use Rattle.solid.specs.Rules.{key_count_of};
ghost use Rattle.std.specs.Prelude.{◌≡◌, [], ◌∷◌, ◌++◌, length, IfOk, Ok};

use crate::index::Index;
use crate::index::corners::Corners;
use crate::index::growth::add_edges;
use crate::index::limits::{EDGES, FACES, KEYS};
use faces::held::Faces;
use ring::ring::Ring;
use std::alloc::{AllocError, Global};
use table::Table;

impl Index {
    // No faces, with all the room that the limits ask for.
    pub fn new(heap: Global) -> Result<Index, AllocError>
        ensures { IfOk result (λ x. faces_of x ≡ []) }
    {
        let faces = Faces::new(heap, FACES, EDGES)?;
        let corners = Corners::new(heap, KEYS)?;
        let edges = Table::new(heap, EDGES)?;
        Ok(Index {
            faces,
            corners,
            edges,
        })
    }

    // Puts in a ring that has passed the tests, as the last face.
    pub fn put(&mut self, ring: &Ring<'_>)
        requires { EnterSays (faces_of self.old) (ring_of ring.now.corners.now) (Ok tt) }
        ensures { faces_of self.new ≡ faces_of self.old ++ ring_of ring.now.corners.now ∷ [] }
    {
        let first = self.faces.corner_count();
        self.corners.add_all(ring.corners);
        add_edges(&mut self.edges, first, ring);
        // Test 18 found room.
        let _ = self.faces.push(ring.corners);
    }

    // Lets all faces go, and keeps the room.
    pub fn clear(&mut self)
        ensures { faces_of self.new ≡ [] }
    {
        self.faces.clear();
        self.corners.clear();
        self.edges.clear();
    }

    // How many faces there are.
    pub fn face_count(&self) -> usize
        ensures { result ≡ length (faces_of self.now) }
    {
        self.faces.len()
    }

    // How many different keys there are.
    pub fn key_count(&self) -> usize
        ensures { result ≡ key_count_of (faces_of self.now) }
    {
        self.corners.positions.len()
    }

    // How many directed edges there are.
    pub fn edge_count(&self) -> usize
        ensures { result ≡ length (all_edges (faces_of self.now)) }
    {
        self.faces.corner_count()
    }
}
