// Whether the faces round each key form one cycle. Each edge is stepped over once, and its reverse found by halving.
#![tactic(auto)]

ghost use Rattle.std.specs.Prelude.{◌<◌, length, MatchOption};
ghost use Rattle.index.specs.Closed.{faces_in};
ghost use Rattle.marks.specs.Bits.{members, Held};
ghost use Rattle.solid.specs.Certifying.{LeastNotRound};
ghost use Rattle.solid.specs.Cycles.{NoStepLeaves, GoneRound};
ghost use Rattle.solid.specs.Faces.{all_edges};
ghost use Rattle.solid.specs.Soundness.{AllRound};

use index::index::closed::ClosedIndex;
use marks::Marks;

// A set of places, of which a hull has at most 3,072.
type Places = Marks<48>;

// Goes round the key at which the edge at a place begins, and marks each place on the way, until it comes to one that is marked.
// A place is a number, as in the index, which says why.
fn go_round(closed: &ClosedIndex<'_>, marks: &mut Places, start: usize)
    requires within { start < length (all_edges (faces_in closed.now)) }
    requires stays { NoStepLeaves (faces_in closed.now) (Held (members marks.old.words)) }
    ensures { GoneRound (faces_in closed.now) start (Held (members marks.old.words)) (Held (members marks.new.words)) }
{
    let mut at = start;
    while !marks.has(at) {
        marks.mark(at);
        at = closed.onward(at);
    }
}

// The least key whose faces do not form one cycle. The edges are looked at in the order of the keys at which they begin: from a key's first one the
// steps go round, and each other edge of the key has to be on the way.
pub fn broken_key(closed: &ClosedIndex<'_>) -> Option<u32>
    ensures { MatchOption result (AllRound (faces_in closed.now)) (λ v. LeastNotRound (faces_in closed.now) v) }
{
    let mut marks = Places::none();
    let mut last = None;
    for &((key, _), place) in closed.index().edges_by_key() {
        if last != Some(key) {
            go_round(closed, &mut marks, place);
            last = Some(key);
        }
        if !marks.has(place) {
            return Some(key);
        }
    }
    None
}
