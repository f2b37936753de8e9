// Tests of the hull: each rule at its limit and just past it, with values worked out by hand.
#![tactic(auto)]

#[cfg(test)]
mod certify;
#[cfg(test)]
mod corners;
#[cfg(test)]
mod edges;
#[cfg(test)]
mod limits;
#[cfg(test)]
mod shapes;
#[cfg(test)]
mod tools;
#[cfg(test)]
mod words;
