//! Claimed ranges: queues of tasks from which every worker claims, so that none is idle while another's range has tasks.
//!
//! `Claims` keeps for each queue one shared word, the number that the next claim of the queue finds; a claim is one atomic addition.
//! README.md of this crate explains the machine, its states and its steps.
//!
//! Its promise: `Claims` meets the law of `TaskQueues`, between any two steps of any threads the words and what the passes know are a
//! lawful state, and None comes only from a pass that has seen every queue at its end. `take` and `finish` take no memory and wait for
//! nobody.
#![tactic(auto)]

mod claims;
mod queues;
mod rule;
mod step;
mod view;

pub use claims::{ClaimPass, Claims};
