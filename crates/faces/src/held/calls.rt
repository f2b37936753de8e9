// The calls on a list of faces. A place and a face are numbers, as in the index above, which says why.
ghost use Rattle.std.specs.Prelude.{◌≡◌, ℕ, suc, ◌+◌, ◌<◌, ◌≤◌, [], length, IfOk};
ghost use Rattle.faces.specs.Held.{stored_corners, stored_rings, stored_key, rings, Room, Pushed};
ghost use Rattle.solid.specs.Places.{first_place, Home};

use crate::held::Faces;
use solid::Corner;
use std::alloc::{AllocError, Global};
use std::ops::Range;
use table::NoRoom;

impl Faces {
    // No faces, with room for that many faces and that many corners in all.
    pub fn new(heap: Global, faces: usize, corners: usize) -> Result<Faces, AllocError>
        ensures { IfOk result (λ f. (stored_rings f ≡ []) × (stored_corners f ≡ []) × Room f faces corners) }
    {
        let corners = Vec::with_capacity(heap, corners)?;
        let ends = Vec::with_capacity(heap, faces)?;
        Ok(Faces { corners, ends })
    }

    // How many faces there are.
    pub fn len(&self) -> usize
        ensures { result ≡ length (stored_rings self.now) }
    {
        self.ends.len()
    }

    // How many corners there are in all: as many as directed edges.
    pub fn corner_count(&self) -> usize
        ensures { result ≡ length (stored_corners self.now) }
    {
        self.corners.len()
    }

    // The key of the corner at a place among all corners: the directed edge of that place begins there.
    pub fn key(&self, place: usize) -> u32
        requires { place < length (stored_corners self.now) }
        ensures { result ≡ stored_key self.now place }
    {
        self.corners[place].key
    }

    // The places of a face: its first, and the one after its last.
    pub fn span(&self, face: usize) -> Range<usize>
        requires { face < length (stored_rings self.now) }
        ensures start { result.start ≡ first_place (rings self.now) face }
        ensures end { result.end ≡ first_place (rings self.now) (suc face) }
    {
        let start = if face == 0 { 0 } else { self.ends[face - 1] };
        start..self.ends[face]
    }

    // The face that has a place: the first that ends past it.
    pub fn home(&self, place: usize) -> usize
        requires { place < length (stored_corners self.now) }
        ensures { Home (rings self.now) place result }
    {
        self.ends.partition_point(|&end| end <= place)
    }

    // The ring as the last face; or all as before, where there is no room.
    pub fn push(&mut self, ring: &[Corner]) -> Result<(), NoRoom>
        ensures { Pushed self.old ring.now self.new result }
    {
        let end = self.corner_count() + ring.len();
        if self.len() == self.ends.capacity() || self.corners.capacity() < end {
            return Err(NoRoom);
        }
        self.corners.extend_from_slice(ring).unwrap();
        self.ends.push_reserved(end);
        Ok(())
    }

    // Empties the list and keeps its room.
    pub fn clear(&mut self)
        ensures rings { stored_rings self.new ≡ [] }
        ensures corners { stored_corners self.new ≡ [] }
        ensures room { (faces corners : ℕ) → Room self.old faces corners → Room self.new faces corners }
    {
        self.corners.clear();
        self.ends.clear();
    }
}
