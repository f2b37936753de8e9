// The geometry of flat-faced solids: what corners, faces and hulls are, the rules that they keep, and the theory of their counting.
// Definitions and lemmas for the crates above; the one item of code is the corner.
#![tactic(auto)]

ghost use Rattle.std.specs.Prelude.{◌≡◌};

// A corner of a face: a key, and a position in hundredths of a millimetre, an array of three as a rule of the project asks.
#[derive(Clone, Copy, Debug, PartialEq, Eq)]
pub struct Corner {
    pub key: u32,
    pub position: [i32; 3],
}

impl Corner {
    pub fn new(key: u32, position: [i32; 3]) -> Corner
        ensures key { result.key ≡ key }
        ensures position { result.position ≡ position }
    {
        Corner { key, position }
    }
}
