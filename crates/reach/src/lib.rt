// Whether the first face reaches every face over shared edges. Each edge is crossed once, and its reverse found by halving.
#![tactic(auto)]

ghost use Rattle.std.specs.Prelude.{◌<◌, length, Decides};
ghost use Rattle.index.specs.Closed.{faces_in};
ghost use Rattle.reach.specs.Sets.{Expanded};
ghost use Rattle.solid.specs.Soundness.{FromFirst};

use crate::reached::Reached;
use index::index::closed::ClosedIndex;

mod reached;

// Adds each face across an edge of this one. A face is a number, as in the index, which says why.
fn expand(closed: &ClosedIndex<'_>, reached: &mut Reached, face: usize)
    requires { face < length (faces_in closed.now) }
    ensures { Expanded (faces_in closed.now) face reached.old reached.new }
{
    for place in closed.index().span(face) {
        reached.add(closed.across(place));
    }
}

// Whether the first face reaches every face: as many faces are reached as there are.
pub fn is_connected(closed: &ClosedIndex<'_>) -> bool
    ensures { Decides result (FromFirst (faces_in closed.now)) }
{
    let faces = closed.index().face_count();
    if faces == 0 {
        return true;
    }
    let mut reached = Reached::none();
    reached.add(0);
    while let Some(face) = reached.next() {
        expand(closed, &mut reached, face);
    }
    reached.count() == faces
}
