// What a hull keeps: its faces with their index, and the running counts.
ghost use Rattle.hull.specs.Counts.{Counted};
ghost use Rattle.index.specs.Meaning.{faces_of};

use index::index::Index;

mod calls;
pub mod certificate;
mod questions;

// A hull: the faces of a solid, entered one after the other, which need not be closed yet.
#[derive(Drop)]
pub struct Hull {
    index: Index,
    // how many edges are open
    open_edges: usize,
    volume: i64,
    // an array of three, as a rule of the project asks
    edge_sum: [i64; 3],
    ghost counted: { ∥ Counted (faces_of index) open_edges volume edge_sum ∥₁ },
}
