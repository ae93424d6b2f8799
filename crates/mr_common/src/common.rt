ghost use Rattle.std.specs.Prelude.{◌≡◌, ◌<◌, ◌≤◌};
ghost use Rattle.mr_defs.specs.Limits.{greatest_capacity};

use crate::rule::FirstWins;
use crate::view::{Extent, View};
use atomic_table::{Seat, Table};
use std::alloc::Global;

/// Words that all workers share, one for each key below a size from 1 to 65536. A word is empty or has the value that came first.
#[derive(Drop)]
pub struct CommonArray {
    pub(crate) table: Table<u8, View, Extent, FirstWins, Global>,
    pub(crate) size: u32,
    ghost words: { (table.shared.table_id.words ≡ size) × (table.shared.table_id.slots ≡ 0) × (table.shared.key.words ≡ size) },
    ghost few: { (0 < size) × (size ≤ greatest_capacity) },
}

/// The right of one worker to emit. Contracts see the pairs that it won and the keys that it was refused.
#[derive(Drop)]
pub struct CommonPass {
    pub(crate) seat: Seat<u8, View>,
}

/// What became of a pair: it was the first of its key, it wasn't, or its key has no word.
#[derive(Clone, Copy, Drop)]
pub enum Emitted {
    Won,
    Twice,
    Outside,
}
