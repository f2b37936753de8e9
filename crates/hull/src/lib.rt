// The hull: faces that are entered one after the other, the questions about them, and what is counted of them.
#![tactic(auto)]

pub mod hull;
