// The calls on a set of faces that are reached.
ghost use Rattle.std.specs.Prelude.{◌≡◌, ℕ, ◌<◌, [], ◌∷◌, ◌++◌, MatchOption};
ghost use Rattle.reach.specs.Sets.{Has, size_of, Added, Taken};

use crate::reached::Reached;
use arrayvec::ArrayVec;
use marks::Marks;

impl Reached {
    // No face.
    pub(crate) fn none() -> Reached
        ensures empty { (g : ℕ) → Has result g → ⊥ }
        ensures waiting { result.waiting.items ≡ [] }
    {
        Reached {
            marks: Marks::none(),
            waiting: ArrayVec::new(),
        }
    }

    // One face more, which waits, unless it is there.
    pub(crate) fn add(&mut self, face: usize)
        requires { face < 512 }
        ensures { Added face self.old self.new }
    {
        if !self.marks.has(face) {
            self.marks.mark(face);
            self.waiting.push(face);
        }
    }

    // A face that waits, which then waits no more.
    pub(crate) fn next(&mut self) -> Option<usize>
        ensures { Taken self.old self.new result }
    {
        self.waiting.pop()
    }

    // How many faces are in the set: the ones in its words, counted.
    pub(crate) fn count(&self) -> usize
        ensures { result ≡ size_of self.now }
    {
        self.marks.count()
    }
}
