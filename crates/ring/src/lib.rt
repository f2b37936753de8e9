// Rings of corners: their directed edges, D, whether they are planar, and whether they are free of crossings.
#![tactic(auto)]

pub mod edges;
pub mod ring;
