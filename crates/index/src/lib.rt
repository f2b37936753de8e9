// Faces with an index: what is entered is tested against it, and found in it by halving sorted tables.
#![tactic(auto)]

pub mod index;
