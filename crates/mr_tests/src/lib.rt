//! Cases from outside over the public calls of the libraries below the jobs: worked examples, edges, and calls on threads.
//!
//! They stand in a crate of their own so that no library is proved twice. There is a module for each library, and for `mr_numeric` two,
//! `items` and `clusters`; `mr_run_tests` has the cases of whole runs.
#![tactic(auto)]

#[cfg(test)]
mod array;
#[cfg(test)]
mod base;
#[cfg(test)]
mod capacity;
#[cfg(test)]
mod claims;
#[cfg(test)]
mod clusters;
#[cfg(test)]
mod combine;
#[cfg(test)]
mod command;
#[cfg(test)]
mod common;
#[cfg(test)]
mod container;
#[cfg(test)]
mod deques;
#[cfg(test)]
mod generator;
#[cfg(test)]
mod grid;
#[cfg(test)]
mod hash;
#[cfg(test)]
mod items;
#[cfg(test)]
mod jobfile;
#[cfg(test)]
mod kernels;
#[cfg(test)]
mod lines;
#[cfg(test)]
mod merge;
#[cfg(test)]
mod outside;
#[cfg(test)]
mod queues;
#[cfg(test)]
mod record;
#[cfg(test)]
mod report;
#[cfg(test)]
mod shown;
#[cfg(test)]
mod split;
#[cfg(test)]
mod text;
#[cfg(test)]
mod threads;
