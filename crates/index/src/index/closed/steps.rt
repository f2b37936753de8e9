// Looking for an open edge, and the steps where there is none.
ghost use Rattle.std.specs.Prelude.{◌≡◌, ◌<◌, length};
ghost use Rattle.index.specs.Closed.{ClosedOr, faces_in};
ghost use Rattle.index.specs.Meaning.{faces_of};
ghost use Rattle.solid.specs.Faces.{all_edges};
ghost use Rattle.solid.specs.Places.{Twin, Onward, Across};
ghost use Rattle.solid.specs.Soundness.{Closed};

use crate::index::Index;
use crate::index::closed::ClosedIndex;
use fault::shape::ShapeFault;

impl Index {
    // The index as one in which no edge is open, or the fault that names the first open edge in order of entry. Out of line, since a hull that counts no
    // open edge doesn't come here.
    #[cold]
    #[inline(never)]
    pub fn closed(&self) -> Result<ClosedIndex<'_>, ShapeFault>
        ensures { ClosedOr self.now result }
    {
        for place in 0..self.edge_count() {
            let from = self.key(place);
            let to = self.key(self.next(place));
            if self.edges.find(&(to, from)).is_none() {
                return Err(ShapeFault::OpenEdge { from, to });
            }
        }
        Ok(ClosedIndex { index: self })
    }
}

impl<'a> ClosedIndex<'a> {
    // An index in which no edge is open, as the caller knows.
    pub fn new(index: &'a Index) -> ClosedIndex<'a>
        requires { Closed (faces_of index.now) }
        ensures { result.index.now ≡ index.now }
    {
        ClosedIndex { index }
    }

    // The index itself.
    pub fn index(&self) -> &'a Index
        ensures { result.now ≡ self.now.index.now }
    {
        self.index
    }

    // The place of the reverse of the edge at a place.
    fn reverse(&self, place: usize) -> usize
        requires { place < length (all_edges (faces_in self.now)) }
        ensures { Twin (faces_in self.now) place result }
    {
        self.index.twin(place).unwrap()
    }

    // One step round the start of the edge at a place.
    pub fn onward(&self, place: usize) -> usize
        requires { place < length (all_edges (faces_in self.now)) }
        ensures { Onward (faces_in self.now) place result }
    {
        self.index.next(self.reverse(place))
    }

    // The face across the edge at a place.
    pub fn across(&self, place: usize) -> usize
        requires { place < length (all_edges (faces_in self.now)) }
        ensures { Across (faces_in self.now) place result }
    {
        self.index.faces.home(self.reverse(place))
    }
}
