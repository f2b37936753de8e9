// An index in which no edge is open: each edge has its reverse, so steps go on round every key and across every edge.
ghost use Rattle.std.specs.Prelude.{◌≡◌, length};
ghost use Rattle.index.specs.Meaning.{faces_of};
ghost use Rattle.solid.specs.Faces.{open_edges_of};

use crate::index::Index;

mod steps;

#[derive(Clone, Copy)]
pub struct ClosedIndex<'a> {
    index: &'a Index,
    ghost closed: { length (open_edges_of (faces_of index.now)) ≡ 0 },
}
