//! Cases of whole runs, from the words of a command to what the outputs hold, over shelves and sinks in memory.
//!
//! They stand in a crate of their own so that `mr_top` is not proved twice. `mr_tests` has the cases of the libraries below.
#![tactic(auto)]

#[cfg(test)]
mod gates;
#[cfg(test)]
mod reports;
#[cfg(test)]
mod rows;
#[cfg(test)]
mod runs;
