//! The queues of tasks that a job may choose, as one type, so that the phases are compiled once and not for each kind of queue.
//!
//! `AnyQueues` is the queues of one kind, and `AnyPass` a pass of one; what contracts see of them is what they see of that kind. The first
//! pass keeps room for all passes of its queues, so that they are handed back without memory, and threads share the queues.
//!
//! Its promise: the law of `TaskQueues`, for whichever kind was chosen.
#![tactic(auto)]

mod any;
mod pass;
mod queues;

pub use any::{AnyPass, AnyQueues};
