//! The text of the mode `generate`, made from a seed, and the summary of what a job makes of it.
//!
//! The text is words, each on a line: the letter `w` and a number below 5000, by the outputs of SplitMix64 (Steele, Lea and Flood), which
//! is `rand_xoshiro`'s. The summary says how long the text is, how many rows the job has, how long their text is, and its mark: the sum of
//! each byte times its place.
//!
//! Its promise: `generated` and `summary` give exactly what `mr_items` defines, or want memory.
#![tactic(auto)]

mod summing;
mod words;

pub use summing::summary;
pub use words::generated;
