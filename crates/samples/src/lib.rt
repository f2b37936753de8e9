// What the demo and the tests share: a tetrahedron, plates of many corners, and all that a hull answers.
#![tactic(auto)]

pub mod answers;
pub mod plate;
pub mod tetrahedron;
