// The directed edges by their places, as they were entered: their keys, reverses and neighbours. The crates that certify walk over these.
// A place is a number, and each call asks that it is one of the index: no plainer as a type of its own, since the tables, spans and sets of marks have
// numbers, from which it would be made with the same requirement, and its contracts would also have to say of which index it is. So is a face.
ghost use Rattle.std.specs.Prelude.{◌≡◌, ℕ, suc, ◌<◌, map, length, MatchOption, slice_index_or};
ghost use Rattle.index.specs.Meaning.{faces_of, places_by_key};
ghost use Rattle.solid.specs.Faces.{flip, all_edges};
ghost use Rattle.solid.specs.Lists.{In};
ghost use Rattle.solid.specs.Places.{edge_at, key_at, first_place, Twin, Follows};
ghost use Rattle.tracking.specs.Tables.{end_keys};

use crate::index::Index;
use ring::edges::following;
use std::ops::Range;

impl Index {
    // The key at which the edge at a place begins.
    pub fn key(&self, place: usize) -> u32
        requires { place < length (all_edges (faces_of self.now)) }
        ensures { result ≡ key_at (faces_of self.now) place }
    {
        self.faces.key(place)
    }

    // The places of a face: its first, and the one after its last.
    pub fn span(&self, face: usize) -> Range<usize>
        requires { face < length (faces_of self.now) }
        ensures start { result.start ≡ first_place (faces_of self.now) face }
        ensures end { result.end ≡ first_place (faces_of self.now) (suc face) }
    {
        self.faces.span(face)
    }

    // The place of the next edge in the ring.
    pub(super) fn next(&self, place: usize) -> usize
        requires { place < length (all_edges (faces_of self.now)) }
        ensures { Follows (faces_of self.now) place result }
    {
        let Range { start, end } = self.faces.span(self.faces.home(place));
        start + following(place - start, end - start)
    }

    // The place of the reverse of the edge at a place.
    pub(super) fn twin(&self, place: usize) -> Option<usize>
        requires { place < length (all_edges (faces_of self.now)) }
        ensures { MatchOption result (In (flip (edge_at (faces_of self.now) place)) (all_edges (faces_of self.now)) → ⊥) (λ q. Twin (faces_of self.now) place q) }
    {
        let from = self.key(place);
        let to = self.key(self.next(place));
        self.edges.find(&(to, from))
    }

    // The edges by the keys of their ends, in the rising order of these, each with its place.
    pub fn edges_by_key(&self) -> &[((u32, u32), usize)]
        ensures places { map (λ e. e.1) result.now ≡ places_by_key self.now }
        ensures keys { (i : ℕ) → i < length result.now → (slice_index_or result.now i ((0, 0), 0)).0 ≡ end_keys (edge_at (faces_of self.now) (slice_index_or result.now i ((0, 0), 0)).1) }
    {
        self.edges.entries()
    }
}
