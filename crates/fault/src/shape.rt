// Faults of the shape: of a face entered into a hull, of the hull, or of the source that tells the faces.
ghost use Rattle.fault.specs.Numbers.{shape_number};
ghost use Rattle.fault.specs.declared.shape.ShapeFault.TheVariants.{Source};
ghost use Rattle.std.specs.Prelude.{◌≡◌};

use crate::record::RecordFault;
use std::error::Error;
use std::fmt;

// `face` is the position of the face asked or entered, from 1. The fault of a source may come before any face is asked: the format of faults has 0
// there, so it is a number and no Option. The faults of a whole hull have none.
#[derive(Clone, Copy, Debug, PartialEq, Eq)]
pub enum ShapeFault {
    // the source answered with a fault
    Source { face: usize, fault: RecordFault },
    // the ring has fewer than 3 or more than 64 corners
    CornerCount { face: usize },
    // a corner breaks a rule alone, against the hull or against an earlier corner
    Corner { face: usize, key: u32 },
    // the corners do not lie in one plane, or enclose no area
    NotPlanar { face: usize },
    // two edges of the ring share a point that they may not
    Crossing { face: usize },
    // a directed edge of the ring is in the hull
    EdgeTwice { face: usize, from: u32, to: u32 },
    // the hull has no room for the face
    Full { face: usize },
    // a directed edge of the hull whose reverse is not in it
    OpenEdge { from: u32, to: u32 },
    // the faces round this key are not one cycle
    KeyCycle { key: u32 },
    // a face is not reached from the first over shared edges
    Disconnected,
    // the kept volume is less than 1
    NoVolume,
}

impl ShapeFault {
    // The fault's number, that of the fault inside where there is one, else 14 to 22.
    pub fn number(&self) -> u32
        ensures { result ≡ shape_number self.now }
    {
        match self {
            ShapeFault::Source { fault, .. } => fault.number(),
            ShapeFault::CornerCount { .. } | ShapeFault::Corner { .. } => 14,
            ShapeFault::NotPlanar { .. } => 15,
            ShapeFault::Crossing { .. } => 16,
            ShapeFault::EdgeTwice { .. } => 17,
            ShapeFault::Full { .. } => 18,
            ShapeFault::OpenEdge { .. } => 19,
            ShapeFault::KeyCycle { .. } => 20,
            ShapeFault::Disconnected => 21,
            ShapeFault::NoVolume => 22,
        }
    }
}

// A record fault met at the face of this position.
impl From<(usize, RecordFault)> for ShapeFault {
    ghost from_gives = { λ x y. y ≡ Source x.0 x.1 };

    fn from(met: (usize, RecordFault)) -> ShapeFault {
        let (face, fault) = met;
        ShapeFault::Source { face, fault }
    }
}

impl fmt::Display for ShapeFault {
    ghost use Rattle.std.specs.Prelude.{Some};
    ghost use Rattle.fault.specs.Printed.{shape_printed};

    ghost output = { λ f. Some (shape_printed f) };

    fn fmt<W: fmt::Write>(&self, f: &mut fmt::Formatter<W>) -> fmt::Result {
        let number = self.number();
        match self {
            ShapeFault::Source { face, fault } => write!(f, "{fault}, for face {face}"),
            ShapeFault::CornerCount { face }
            | ShapeFault::NotPlanar { face }
            | ShapeFault::Crossing { face }
            | ShapeFault::Full { face } => write!(f, "fault {number} at face {face}"),
            ShapeFault::Corner { face, key } => write!(
                f,
                "fault {number} at face {face}, key {key}"
            ),
            ShapeFault::EdgeTwice { face, from, to } => {
                write!(f, "fault {number} at face {face}, edge {from} to {to}")
            }
            ShapeFault::OpenEdge { from, to } => write!(f, "fault {number} at edge {from} to {to}"),
            ShapeFault::KeyCycle { key } => write!(f, "fault {number} at key {key}"),
            ShapeFault::Disconnected | ShapeFault::NoVolume => write!(f, "fault {number}"),
        }
    }
}

impl Error for ShapeFault {}
