ghost use Rattle.std.specs.Prelude.{◌≡◌, ◌<◌, ◌≤◌, ◌*◌, length};
ghost use Rattle.mr_base.specs.Tasks.{total_of};

use crate::rule::Claiming;
use crate::view::View;
use atomic_table::{Seat, Table};
use mr_base::Ranges;
use std::alloc::Global;

/// Queues that are ranges of tasks, from which every pass claims: a shared word per queue has the number that the next claim of it finds.
#[derive(Drop)]
pub struct Claims {
    pub(crate) table: Table<u8, View, Ranges, Claiming, Global>,
    pub(crate) ranges: Ranges,
    ghost few: { (0 < length ranges) × (length ranges ≤ 32) },
    ghost counts: { (table.shared.table_id.words ≡ length ranges * 8) × (table.shared.table_id.slots ≡ 0) },
    ghost about: { table.shared.key ≡ ranges },
}

/// The right of one worker to claim.
#[derive(Drop)]
pub struct ClaimPass {
    pub(crate) seat: Seat<u8, View>,
    pub(crate) number: u32,
    // The queues that it has seen at their end.
    pub(crate) seen: [bool; 32],
    pub(crate) ended: bool,
}
