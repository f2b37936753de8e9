// The calls on keys and their positions.
ghost use Rattle.std.specs.Prelude.{◌≡◌, ◌≤◌, [], ◌∷◌, IfOk};
ghost use Rattle.index.specs.Corners.{NoCorners};
ghost use Rattle.std.specs.Ordering.{nat_cmp};
ghost use Rattle.tracking.specs.Growth.{Grows};
ghost use Rattle.tracking.specs.Tables.{position_cmp, key_pairs, position_pairs};

use crate::index::corners::Corners;
use solid::Corner;
use std::alloc::{AllocError, Global};
use table::Table;

impl Corners {
    // No corner, with room for that many.
    pub(crate) fn new(heap: Global, room: usize) -> Result<Corners, AllocError>
        ensures { IfOk result (λ c. NoCorners c × (room ≤ c.positions.room) × (room ≤ c.keys.room)) }
    {
        let positions = Table::new(heap, room)?;
        let keys = Table::new(heap, room)?;
        Ok(Corners { positions, keys })
    }

    // Puts a corner in, where there is room.
    fn add(&mut self, c: Corner)
        ensures positions { Grows nat_cmp self.old.positions (key_pairs (c ∷ [])) self.new.positions }
        ensures keys { Grows position_cmp self.old.keys (position_pairs (c ∷ [])) self.new.keys }
    {
        let _ = self.positions.insert(c.key, c.position);
        let _ = self.keys.insert(c.position, c.key);
    }

    // Puts the corners in, where there is room.
    pub(crate) fn add_all(&mut self, corners: &[Corner])
        ensures positions { Grows nat_cmp self.old.positions (key_pairs corners.now) self.new.positions }
        ensures keys { Grows position_cmp self.old.keys (position_pairs corners.now) self.new.keys }
    {
        for c in corners {
            self.add(*c);
        }
    }

    // Empties both, and keeps their room.
    pub(crate) fn clear(&mut self)
        ensures none { NoCorners self.new }
        ensures room { (self.new.positions.room ≡ self.old.positions.room) × (self.new.keys.room ≡ self.old.keys.room) }
    {
        self.positions.clear();
        self.keys.clear();
    }
}
