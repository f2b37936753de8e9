// What a face that has passed the tests adds to the tables.
ghost use Rattle.std.specs.Prelude.{◌≤◌, [], ◌∷◌, length};
ghost use Rattle.tracking.specs.Growth.{Grows, Reverses};
ghost use Rattle.tracking.specs.Tables.{edge_cmp, edge_pairs};
ghost use Rattle.index.specs.Meaning.{faces_of};
ghost use Rattle.solid.specs.Corners.{ring_of};
ghost use Rattle.solid.specs.Entering.{AllAllowed};
ghost use Rattle.solid.specs.Faces.{edges as edges_of};

use crate::index::Index;
use ring::edges::edges;
use ring::ring::Ring;
use solid::Corner;
use table::Table;

// Puts the ring's directed edges into the table, numbered from `first` on.
pub(super) fn add_edges(table: &mut Table<(u32, u32), usize>, first: usize, ring: &Ring<'_>)
    requires { first ≤ 3072 }
    ensures { Grows edge_cmp table.old (edge_pairs first (edges_of (ring_of ring.now.corners.now))) table.new }
{
    for (i, (a, b)) in edges(ring.corners).enumerate() {
        // Test 18 found room.
        let _ = table.insert((a.key, b.key), first + i);
    }
}

impl Index {
    // How many of the ring's edges have their reverse among those of the faces.
    pub fn reverses(&self, ring: &[Corner]) -> usize
        requires { AllAllowed (faces_of self.now) [] (ring_of ring.now) }
        ensures { Reverses (faces_of self.now) (ring_of ring.now) result }
    {
        edges(ring)
            .filter(|(a, b)| self.edges.find(&(b.key, a.key)).is_some())
            .count()
    }
}
