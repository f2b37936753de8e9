// What certifying gives. Its fields are private to this module and those below it: only certifying makes one.
ghost use Rattle.std.specs.Prelude.{pos, ◌≤ℤ◌};

mod certify;
mod numbers;

// The numbers of a sound hull.
#[derive(Clone, Copy, Debug, PartialEq, Eq)]
pub struct Certificate {
    keys: usize,
    edges: usize,
    faces: usize,
    volume: i64,
    ghost positive: { pos 1 ≤ℤ volume },
}
