// Faults of the records that describe a solid, each with the number of the record.
ghost use Rattle.fault.specs.Numbers.{record_number};
ghost use Rattle.fault.specs.declared.record.RecordFault.TheVariants.{Text};
ghost use Rattle.std.specs.Prelude.{◌≡◌};

use crate::text::TextFault;
use std::error::Error;
use std::fmt;

#[derive(Clone, Copy, Debug, PartialEq, Eq)]
pub enum RecordFault {
    // the record's text has a fault
    Text { record: u32, fault: TextFault },
    // no entry has this number
    Absent { record: u32 },
    // the entry stands in another file
    Outside { record: u32 },
    // another keyword than the one expected, or a complex record
    Keyword { record: u32 },
    // the number of attributes is not as tabled
    Count { record: u32 },
    // an attribute's kind, or the length of its list, is not as tabled
    Kind { record: u32, attribute: u32 },
    // an attribute breaks the rule of its value; the format of faults has 0 where the source has no attributes, so it is a number and no Option
    Value { record: u32, attribute: u32 },
    // a name stands twice in an attribute's list
    Twice { record: u32, attribute: u32 },
}

impl RecordFault {
    // The fault's number, that of the text fault inside where there is one, else 8 to 13.
    pub fn number(&self) -> u32
        ensures { result ≡ record_number self.now }
    {
        match self {
            RecordFault::Text { fault, .. } => fault.number(),
            RecordFault::Absent { .. } => 8,
            RecordFault::Outside { .. } => 9,
            RecordFault::Keyword { .. } => 10,
            RecordFault::Count { .. } | RecordFault::Kind { .. } => 11,
            RecordFault::Value { .. } => 12,
            RecordFault::Twice { .. } => 13,
        }
    }
}

// A text fault met in the text of a record of this number.
impl From<(u32, TextFault)> for RecordFault {
    ghost from_gives = { λ x y. y ≡ Text x.0 x.1 };

    fn from(met: (u32, TextFault)) -> RecordFault {
        let (record, fault) = met;
        RecordFault::Text { record, fault }
    }
}

impl fmt::Display for RecordFault {
    ghost use Rattle.std.specs.Prelude.{Some};
    ghost use Rattle.fault.specs.Printed.{record_printed};

    ghost output = { λ f. Some (record_printed f) };

    fn fmt<W: fmt::Write>(&self, f: &mut fmt::Formatter<W>) -> fmt::Result {
        let number = self.number();
        match self {
            RecordFault::Text { record, fault } => write!(f, "{fault}, in record {record}"),
            RecordFault::Absent { record }
            | RecordFault::Outside { record }
            | RecordFault::Keyword { record }
            | RecordFault::Count { record } => write!(f, "fault {number} at record {record}"),
            RecordFault::Kind { record, attribute }
            | RecordFault::Value { record, attribute }
            | RecordFault::Twice { record, attribute } => {
                write!(
                    f,
                    "fault {number} at record {record}, attribute {attribute}"
                )
            }
        }
    }
}

impl Error for RecordFault {}
