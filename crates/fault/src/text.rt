// Faults of the text of an exchange file, each with the byte place where it was met.
ghost use Rattle.fault.specs.Numbers.{text_number};
ghost use Rattle.std.specs.Prelude.{◌≡◌};

use std::error::Error;
use std::fmt;

#[derive(Clone, Copy, Debug, PartialEq, Eq)]
pub enum TextFault {
    // the file is too long
    TooLong { place: usize },
    // no form of token matches here, or a comment stays open
    NoToken { place: usize },
    // the grammar has no such token here, or the end is met
    Unexpected { place: usize },
    // a bracket is too deep
    TooDeep { place: usize },
    // the header names another level of the format
    Level { place: usize },
    // more names or anchors than there is room for
    NoRoom { place: usize },
    // a name or an anchor is defined again
    Again { place: usize },
}

impl TextFault {
    // The fault's number, 1 to 7.
    pub fn number(&self) -> u32
        ensures { result ≡ text_number self.now }
    {
        match self {
            TextFault::TooLong { .. } => 1,
            TextFault::NoToken { .. } => 2,
            TextFault::Unexpected { .. } => 3,
            TextFault::TooDeep { .. } => 4,
            TextFault::Level { .. } => 5,
            TextFault::NoRoom { .. } => 6,
            TextFault::Again { .. } => 7,
        }
    }
}

impl fmt::Display for TextFault {
    ghost use Rattle.std.specs.Prelude.{Some};
    ghost use Rattle.fault.specs.Printed.{text_printed};

    ghost output = { λ f. Some (text_printed f) };

    fn fmt<W: fmt::Write>(&self, f: &mut fmt::Formatter<W>) -> fmt::Result {
        let (TextFault::TooLong { place }
        | TextFault::NoToken { place }
        | TextFault::Unexpected { place }
        | TextFault::TooDeep { place }
        | TextFault::Level { place }
        | TextFault::NoRoom { place }
        | TextFault::Again { place }) = self;
        write!(f, "fault {} at place {place}", self.number())
    }
}

impl Error for TextFault {}
