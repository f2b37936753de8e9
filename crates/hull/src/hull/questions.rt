// The questions that a hull answers.
ghost use Rattle.algebra.specs.Vector.{vector};
ghost use Rattle.hull.specs.Law.{Law};
ghost use Rattle.hull.specs.Meaning.{faces_of, answered_volume, answered_edge_sum};
ghost use Rattle.solid.specs.Faces.{all_edges, open_edges_of, kept_volume_of, edge_sum_of};
ghost use Rattle.solid.specs.Reversal.{Negates};
ghost use Rattle.solid.specs.Roll.{ask as asking};
ghost use Rattle.solid.specs.Rules.{key_count_of};
ghost use Rattle.std.specs.Prelude.{◌≡◌, length};

use crate::hull::Hull;

impl Hull {
    // How many faces there are.
    pub fn face_count(&self) -> usize
        ensures value { result ≡ length (faces_of self.now) }
        ensures law { Law asking self.now self.now }
    {
        self.index.face_count()
    }

    // How many keys there are.
    pub fn key_count(&self) -> usize
        ensures value { result ≡ key_count_of (faces_of self.now) }
        ensures law { Law asking self.now self.now }
    {
        self.index.key_count()
    }

    // How many directed edges there are.
    pub fn edge_count(&self) -> usize
        ensures value { result ≡ length (all_edges (faces_of self.now)) }
        ensures law { Law asking self.now self.now }
    {
        self.index.edge_count()
    }

    // How many directed edges are open: have no reverse in the hull.
    pub fn open_edge_count(&self) -> usize
        ensures value { result ≡ length (open_edges_of (faces_of self.now)) }
        ensures law { Law asking self.now self.now }
    {
        self.open_edges
    }

    // The kept volume: the count from the origin. Turning every ring round negates it, with each D and the edge sum.
    pub fn kept_volume(&self) -> i64
        ensures value { (result ≡ kept_volume_of (faces_of self.now)) × (result ≡ answered_volume self.now) }
        ensures negates { Negates (faces_of self.now) result (answered_edge_sum self.now) }
        ensures law { Law asking self.now self.now }
    {
        self.volume
    }

    // The edge sum: the sum of the vector products of the open edges' ends.
    pub fn edge_sum(&self) -> [i64; 3]
        ensures value { (vector result ≡ edge_sum_of (faces_of self.now)) × (vector result ≡ answered_edge_sum self.now) }
        ensures law { Law asking self.now self.now }
    {
        self.edge_sum
    }
}
