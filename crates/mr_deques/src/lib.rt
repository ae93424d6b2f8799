//! Stealing deques: each worker owns a first-in first-out deque of tasks, and steals from the others when its own has none left.
//!
//! A deque holds its tasks and, behind them, one end mark for each pass. README.md of this crate explains the machine: its states and
//! steps, why there are end marks, and why the owners alone make it complete.
//!
//! Its promise: `Deques` meets the law of `TaskQueues`, between any two steps of any threads each deque and what the passes know of it are
//! a lawful state, and None comes only from a pass that has an end mark of its own deque. `take` and `finish` take no memory and wait for
//! nobody.
#![tactic(auto)]

mod deque;
mod deques;
mod gather;
mod passes;
mod queues;
mod rule;
mod share;
mod take;
mod view;

pub use deques::Deques;
pub use passes::DequePass;
