//! The kinds of job, container, key, combiner, reducer and queue that a job file names, and which of them go together.
//!
//! Names, capacities and pairings are tables of data (`JOB_NAMES`, `CAPACITIES`, `PAIRINGS`, ..), written out in `specs/` too; one rule
//! over each table says what it means. What the combiners fold values to is a function of these kinds (`folded` in `specs/`), over the
//! folds of `mr_defs`. The macros call a function at the types that a kind and a capacity stand for.
//!
//! Its promise: `capacity_allowed` and `pairing_allowed` are true exactly for what the tables of `specs/` list, and names are as they say.
#![tactic(auto)]

mod dispatch;
mod jobs;
mod kinds;
mod names;
mod tables;

pub use jobs::{Further, JOB_NAMES, JobKind, PAIRINGS, TEXT_JOBS};
pub use kinds::{CombinerKind, ContainerKind, KeyKind, QueueKind, ReducerKind};
pub use names::{
    COMBINER_NAMES, CONTAINER_NAMES, KEY_NAMES, QUEUE_NAMES, REDUCER_NAMES, named, tables_of_names,
};
pub use tables::{CAPACITIES, Pairing, capacity_allowed, is_row, is_text_job, pairing_allowed};
