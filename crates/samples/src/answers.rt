// What a hull answers to all its questions, to compare and to print.
ghost use Rattle.hull.specs.Meaning.{faces_of};
ghost use Rattle.samples.specs.Answers.{IsAnswered};

use hull::hull::Hull;
use std::fmt;

#[derive(Clone, Copy, Debug, PartialEq, Eq)]
pub struct Answers {
    pub faces: usize,
    pub keys: usize,
    pub edges: usize,
    pub open_edges: usize,
    pub volume: i64,
    pub edge_sum: [i64; 3],
}

// The answers of a hull.
impl From<&Hull> for Answers {
    ghost from_gives = { λ hull answers. IsAnswered (faces_of hull.now) answers };

    fn from(hull: &Hull) -> Answers {
        let edge_sum = hull.edge_sum();
        Answers {
            faces: hull.face_count(),
            keys: hull.key_count(),
            edges: hull.edge_count(),
            open_edges: hull.open_edge_count(),
            volume: hull.kept_volume(),
            edge_sum,
        }
    }
}

// The first line of the answers: how many there are of each.
#[derive(Clone, Copy)]
pub struct Counts(pub Answers);

impl fmt::Display for Counts {
    ghost use Rattle.std.specs.Prelude.{Some};
    ghost use Rattle.samples.specs.Printed.{counts_printed};

    ghost output = { λ c. Some (counts_printed c.0) };

    fn fmt<W: fmt::Write>(&self, f: &mut fmt::Formatter<W>) -> fmt::Result {
        let Answers {
            faces,
            keys,
            edges,
            open_edges,
            ..
        } = self.0;
        write!(
            f,
            "faces {faces}, keys {keys}, directed edges {edges}, open edges {open_edges}"
        )
    }
}

// The second line of the answers: the kept volume and the edge sum.
#[derive(Clone, Copy)]
pub struct Volume(pub Answers);

impl fmt::Display for Volume {
    ghost use Rattle.std.specs.Prelude.{Some};
    ghost use Rattle.samples.specs.Printed.{volume_printed};

    ghost output = { λ v. Some (volume_printed v.0) };

    fn fmt<W: fmt::Write>(&self, f: &mut fmt::Formatter<W>) -> fmt::Result {
        let Answers {
            volume,
            edge_sum: [x, y, z],
            ..
        } = self.0;
        write!(f, "kept volume {volume}, edge sum ({x}, {y}, {z})")
    }
}

// Both lines, the second begun by two spaces.
impl fmt::Display for Answers {
    ghost use Rattle.std.specs.Prelude.{Some};
    ghost use Rattle.samples.specs.Printed.{answers_printed};

    ghost output = { λ a. Some (answers_printed a) };

    fn fmt<W: fmt::Write>(&self, f: &mut fmt::Formatter<W>) -> fmt::Result {
        write!(f, "{}\n  {}", Counts(*self), Volume(*self))
    }
}
