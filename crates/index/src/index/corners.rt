// Which key lies at which position, found by either.
use table::Table;

mod calls;

#[derive(Drop)]
pub(crate) struct Corners {
    // the position of each key
    pub positions: Table<u32, [i32; 3]>,
    // the key at each position
    pub keys: Table<[i32; 3], u32>,
}
