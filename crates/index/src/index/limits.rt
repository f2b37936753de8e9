// The limits of a ring and of a hull.
pub const LEAST_CORNERS: usize = 3;

pub const MOST_CORNERS: usize = 64;

pub const FACES: usize = 512;

pub const KEYS: usize = 1024;

pub const EDGES: usize = 3072;
