//! The hash container of a worker.
//!
//! `HashLocal` keeps one cell for each key that was emitted. Contracts see N buckets: a key stands in the bucket of its hash modulo N, and
//! its partition is that bucket modulo the number of partitions. The keys and cells lie in one dense list in the order in which they came,
//! found by open addressing by the code of a key; the hash is taken once, for a key that is new.
//!
//! A local whose table has grown large while few of its pairs shared a key can be spilled: it gives the table away and goes on with an empty
//! one, so that the table in use stays small. `join_all` joins the entries of many tables: each key stands once, with all its cells merged.
//!
//! Its promise: `HashLocal` meets the laws of `Local` and `Parted`, every key is inside, and a pair of a key that is there takes no memory
//! where the combiner is fixed. What is joined has the keys that were lent, and of each the cells that were lent.
#![tactic(auto)]

mod ahead;
mod chains;
mod entry;
mod hash;
mod join;
mod near;
mod slots;
mod table;

pub use entry::Entry;
pub use hash::HashLocal;
pub use join::join_all;
