//! What a worker keeps of the pairs that its tasks emit.
//!
//! A `Local` stands for a list of emissions: each key inside that has a pair has one cell, which is the fold of its values, and what is
//! malformed, outside or too large is noted. A `Parted` local is read partition by partition, and a `Mapper` emits task by task into any
//! local. Contracts see a local by the ghost members of these traits; the words that they cite stand in `mr_defs`.
//!
//! Its promise: each emission leads from a local that stands for a list to one that stands for the list with that emission at its end,
//! and a local stands for every order of its list.
#![tactic(auto)]

mod cursor;
mod local;
mod mapper;
mod parted;
mod sorted;

pub use cursor::Cursor;
pub use local::Local;
pub use mapper::{Mapper, map_all};
pub use parted::Parted;
pub use sorted::SortedLocal;
