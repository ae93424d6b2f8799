//! The phases of a run: the tasks are mapped into the locals of the workers, and what the locals hold is reduced to rows.
//!
//! Workers on threads take tasks from their queues until these are empty (`map_phase`); each keeps its tasks and its local, its hand. Then
//! they take the partitions of the keys (`reduce_phase`), or the calling thread reduces all keys by itself (`gather`): the cells of a key
//! are merged over all hands, and each that is not over becomes a row. `common_phase` maps into one array that all workers share; there is
//! nothing to reduce.
//!
//! Its promise: the rows and the faults are those of all that the tasks emit, whichever worker took which task, and whichever queue,
//! container, combiner and reducer the job has.
#![tactic(auto)]

mod ahead;
mod blocks;
mod calling;
mod common;
mod entries;
mod hands;
mod joined;
mod map;
mod mapped;
mod order;
mod partition;
mod reduce;
mod taking;
mod together;

pub use blocks::{BlockPass, Blocks};
pub use calling::gather;
pub use common::{CommonDone, CommonHand, common_phase};
pub use hands::Hand;
pub use map::map_phase;
pub use mapped::Mapped;
pub use reduce::reduce_phase;
pub use together::Reduced;
