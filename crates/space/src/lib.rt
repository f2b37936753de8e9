// Exact arithmetic on positions and vectors, three-element arrays by value: products, and tests of segments.
#![tactic(auto)]

pub mod segment;
pub mod vector;
