// The numbered faults, in three layers: a text fault inside a record fault inside a shape fault.
#![tactic(auto)]

pub mod record;
pub mod shape;
pub mod text;
