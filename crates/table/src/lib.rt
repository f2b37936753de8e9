// A sorted table with its room reserved, seen as a finite map.
#![tactic(auto)]

use std::marker::Model;

mod calls;

// Values by keys, in rising order of the keys. A rule of the project takes all memory first: std's BTreeMap takes some at each new key. Of the
// maps that can reserve, HashMap knows no order, and certifying goes over the edges in the order of their keys; the kit's IndexMap overwrites and grows
// where this keeps and refuses. One kind of table serves all.
#[derive(Drop)]
pub struct Table<K: Ord, V> {
    entries: Vec<(K, V)>,
}

impl<K: Ord, V> Model for Table<K, V> {
    ghost use Rattle.std.specs.Prelude.{T, vec_capacity};
    ghost use Rattle.std.specs.FinMap.{is_sorted};
    ghost use Rattle.table.specs.Seen.{Seen};

    ghost Value = { Seen K V };

    ghost view = { λ t. record { entries = t.entries.items; room = vec_capacity t.entries } };

    ghost invariant = { λ t. T (is_sorted K.cmp t.entries.items) };
}

// There is no room left for what is put in.
#[derive(Clone, Copy, Debug, PartialEq, Eq)]
pub struct NoRoom;
