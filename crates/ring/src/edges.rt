// The directed edges of a ring in order: each corner with the one after it, and the last with the first.
ghost use Rattle.std.specs.Prelude.{◌≡◌, ◌<◌};
ghost use Rattle.ring.specs.Places.{following as following_of};
ghost use Rattle.solid.specs.Corners.{ring_of};
ghost use Rattle.solid.specs.Faces.{edges as edges_of};

use solid::Corner;
use std::marker::Model;

// The place after i in a ring of k corners.
pub fn following(i: usize, k: usize) -> usize
    requires { i < k }
    ensures is { result ≡ following_of k i }
    ensures within { result < k }
{
    if i + 1 < k { i + 1 } else { 0 }
}

// The edges of a ring from a place on. A clause sees it as the list of these edges, which it could not with a `zip` of the corners and those after them;
// so it counts the place itself.
#[derive(Drop)]
pub struct RingEdges<'a> {
    ring: &'a [Corner],
    place: usize,
}

impl<'a> Model for RingEdges<'a> {
    ghost use Rattle.std.specs.Prelude.{List, drop};
    ghost use Rattle.solid.specs.Corners.{ring_of};
    ghost use Rattle.solid.specs.Faces.{Edge as Edge_of, edges as edges_of};

    ghost Value = { List Edge_of };

    ghost view = { λ e. drop e.place (edges_of (ring_of e.ring.now)) };
}

impl<'a> Iterator for RingEdges<'a> {
    type Item = (Corner, Corner);

    ghost use Rattle.std.specs.Iterator.{YieldsFirstBy, item_count};
    ghost use Rattle.ring.specs.Places.{edge_of};

    ghost next_gives = { YieldsFirstBy edge_of (λ e. e) };

    ghost remaining = { item_count (λ e. e) };

    fn next(&mut self) -> Option<(Corner, Corner)> {
        let from = *self.ring.get(self.place)?;
        let to = self.ring[following(self.place, self.ring.len())];
        self.place += 1;
        Some((from, to))
    }
}

// The edges of a ring.
pub fn edges(ring: &[Corner]) -> RingEdges<'_>
    ensures { result ≡ edges_of (ring_of ring.now) }
{
    RingEdges { ring, place: 0 }
}
