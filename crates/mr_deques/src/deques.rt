ghost use Rattle.std.specs.Prelude.{◌<◌, ◌≤◌, length};

use crate::deque::Thief;
use mr_base::{Few, Ranges};

/// Queues of tasks from which idle workers steal: a first-in first-out deque for each.
#[derive(Drop)]
pub struct Deques {
    // What steals from each deque.
    pub(crate) thieves: Few<Thief>,
    pub(crate) ranges: Ranges,
    ghost few: { (0 < length ranges) × (length ranges ≤ 32) },
}
