//! The merge of lists of rows, to one list or straight to its text.
//!
//! All lists are cut at a few keys into ranges. Beside each other, in threads where they can be made, the ranges are planned: from which
//! list row after row is to be taken. Then each row is moved once, by these plans, or printed where it lies. Most keys are told apart by
//! their leads.
//!
//! Its promise: of lists that ascend and whose keys differ come all their rows, ascending by key, or the text of that list.
#![tactic(auto)]

mod cut;
mod lesser;
mod merge;
mod plan;
mod ranges;
mod text;

pub use merge::merge_all;
pub use text::merged_text;
