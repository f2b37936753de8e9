// All corners, ring after ring, and where each ring ends. A rule of the project takes all memory first, which no Vec of rings can.
ghost use Rattle.std.specs.Prelude.{◌≡◌, true, vec_len};
ghost use Rattle.faces.specs.Cuts.{ends_rise};

use solid::Corner;

mod calls;

#[derive(Drop)]
pub struct Faces {
    corners: Vec<Corner>,
    ends: Vec<usize>,
    ghost rise: { ends_rise 0 ends.items (vec_len corners) ≡ true },
}
