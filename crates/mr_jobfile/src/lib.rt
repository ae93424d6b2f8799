//! Reads a job file: the TOML text that says which job is run, with which container, combiner and queue.
//!
//! The definition is `job_of` in `specs/`: conditions on the whole table that `toml` reads, in the order of the faults. It knows no walk
//! over the file. Keys and ranges are tables of data, with one rule for each kind of value.
//!
//! Its promise: `read_job` gives the job exactly where `job_of` has one, with every field, and else exactly the fault that `job_of` names;
//! want of memory is told apart from both.
#![tactic(auto)]

mod defaults;
mod document;
mod fault;
mod forms;
mod job;
mod key;
mod pairing;
mod read;
mod values;

pub use fault::{JobFault, fault_text};
pub use job::Job;
pub use key::JobKey;
pub use read::{JOB_LIMIT, read_job};
