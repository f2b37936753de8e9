// The calls on a table.
ghost use Rattle.std.specs.Prelude.{◌≡◌, ◌≤◌, None, IfOk, IsErr, OnOk, OnErr, ◌↔◌};
ghost use Rattle.std.specs.FinMap as map;
ghost use Rattle.table.specs.Seen.{map_of, insert_new, Placed};

use crate::{NoRoom, Table};
use std::alloc::{AllocError, Global};

impl<K: Ord + Drop, V: Copy> Table<K, V> {
    // An empty table with at least that room.
    pub fn new(heap: Global, room: usize) -> Result<Table<K, V>, AllocError>
        ensures { IfOk result (λ t. (map_of K.cmp t ≡ map.empty) × (room ≤ t.room)) }
    {
        let entries = Vec::with_capacity(heap, room)?;
        Ok(Table { entries })
    }

    // How many entries there are.
    pub fn len(&self) -> usize
        ensures { result ≡ map.len (map_of K.cmp self.now) }
    {
        self.entries.len()
    }

    // The entries, in rising order of the keys.
    pub fn entries(&self) -> &[(K, V)]
        ensures { result.now ≡ map.entries (map_of K.cmp self.now) }
    {
        &self.entries
    }

    // Where the key stands, or else where it would go.
    fn place(&self, key: &K) -> Result<usize, usize>
        ensures { Placed (map_of K.cmp self.now) key.now result }
    {
        self.entries.binary_search_by(|entry| entry.0.cmp(key))
    }

    // The value under a key.
    pub fn find(&self, key: &K) -> Option<V>
        ensures { result ≡ map.get (map_of K.cmp self.now) key.now }
    {
        match self.place(key) {
            Ok(at) => Some(self.entries[at].1),
            Err(_) => None,
        }
    }

    // Puts a new key in and keeps one that is there. It refuses only a new key with no room left, and never allocates.
    pub fn insert(&mut self, key: K, value: V) -> Result<(), NoRoom>
        ensures ok { OnOk result (map_of K.cmp self.new ≡ insert_new (map_of K.cmp self.old) key value) }
        ensures err { OnErr result (self.new ≡ self.old) }
        ensures refuses { IsErr result ↔ ((map.get (map_of K.cmp self.old) key ≡ None) × (map.len (map_of K.cmp self.old) ≡ self.old.room)) }
        ensures room { self.new.room ≡ self.old.room }
    {
        let Err(at) = self.place(&key) else {
            return Ok(());
        };
        if self.entries.len() == self.entries.capacity() {
            return Err(NoRoom);
        }
        self.entries.insert(at, (key, value)).map_err(|_| NoRoom)
    }

    // Empties the table and keeps its room.
    pub fn clear(&mut self)
        ensures map { map_of K.cmp self.new ≡ map.empty }
        ensures room { self.new.room ≡ self.old.room }
    {
        self.entries.clear();
    }
}
