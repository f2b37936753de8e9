// The faces that are reached: a set, and those of them whose edges are still to be crossed.
ghost use Rattle.arrayvec.specs.ArrayVec.{array_vec_len};
ghost use Rattle.marks.specs.Bits.{members, ones_of};
ghost use Rattle.std.specs.Prelude.{◌≤◌};

use arrayvec::ArrayVec;
use marks::Marks;

mod calls;

// A set of faces, of which a hull has at most 512. A face waits from when it is reached until it is taken up, so those that wait are no
// more than those in the set, and have room.
#[derive(Drop)]
pub(crate) struct Reached {
    marks: Marks<8>,
    waiting: ArrayVec<usize, 512>,
    ghost few: { array_vec_len waiting ≤ ones_of (members marks.words) },
}
