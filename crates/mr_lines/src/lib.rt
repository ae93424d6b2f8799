//! The jobs over the lines of a text: folds of keyed lines, an index of words, and lines in which patterns stand.
//!
//! `LineJob` says of a job what a line emits, and `Lines` cuts the text into tasks: a task is a piece, and emits what the lines that begin
//! in it emit, one after the other, with their places in the whole text. `SliceLines` is the same for keys that borrow the text. A job
//! over lines is an `impl LineJob`, in whichever crate it stands.
//!
//! Its promise: a task emits exactly what the job says of the lines of its piece, which for the jobs here is what `mr_items` says, and all
//! tasks together what those of the whole text do. It goes on after a malformed line.
#![tactic(auto)]

mod driver;
mod field;
mod fold;
mod index;
mod search;
mod slice_lines;
mod string_match;

pub use driver::{LineJob, Lines, map_lines};
pub use fold::{FoldBytes, FoldNumbers, LinesOfBytes, LinesOfNumbers};
pub use index::{InvertedIndex, WordsOfLines};
pub use slice_lines::SliceLines;
pub use string_match::StringMatch;
