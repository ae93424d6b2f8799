//! The report of a run: what each worker did in each round, a line for each.
//!
//! Its promise: the bytes are the report of the lists, as `mr_items` defines it, where different lists have different reports.
#![tactic(auto)]

mod printing;

pub use printing::{Share, report};
