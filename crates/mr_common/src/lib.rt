//! The common array: one array of words for all workers, for jobs that emit each key at most once.
//!
//! `CommonArray` has a shared word for each key; one exchange of the word decides which pair of the key came first. `CommonLocal` is the
//! container of one worker over it. README.md of this crate explains the machine, its states and its steps.
//!
//! Its promise: between any two steps of any threads the words and what the passes know are a lawful state, so the rows at the end are the
//! pairs that were won, each key once, and the keys that were refused are those that were emitted again. `emit` takes no memory and waits
//! for nobody.
#![tactic(auto)]

mod array;
mod common;
mod common_local;
mod local;
mod rule;
mod step;
mod view;

pub use common::{CommonArray, CommonPass, Emitted};
pub use common_local::CommonLocal;
