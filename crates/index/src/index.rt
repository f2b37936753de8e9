// Faces, and sorted tables that find their keys, positions and edges.
ghost use Rattle.tracking.specs.Tables.{Kept};

use crate::index::corners::Corners;
use faces::held::Faces;
use table::Table;

mod calls;
pub mod closed;
mod corners;
mod entering;
mod growth;
mod limits;
mod places;

#[derive(Drop)]
pub struct Index {
    faces: Faces,
    corners: Corners,
    // the number of each directed edge, in order of entry
    edges: Table<(u32, u32), usize>,
    ghost kept: { ∥ Kept faces corners.positions corners.keys edges ∥₁ },
}
