//! The small types that every crate speaks of: keys, values that may be emitted, answers and rows, the faults of a list of emissions, lists
//! with room taken beforehand, texts, and the statuses of a run.
//!
//! Each is seen as one plain value: a byte key, a word or a text as its bytes, a number key as a number, an answer as its numbers, rows as
//! pairs of a key and an answer. What takes memory is passed an allocator or keeps one, and answers `Memory` where none is found; the value
//! it was to change is then as before.
//!
//! Its promise: a fault is the least of its kind whichever worker noted it (`Faults::merge`), and equal keys have one hash, one order and
//! one text (`Key`).
#![tactic(auto)]

mod answer;
mod borrowed;
mod emitted;
mod faults;
mod few;
mod key;
mod lanes;
mod lead;
mod memory;
mod number;
mod patterns;
mod queues;
mod ranges;
mod rows;
mod status;
mod text;
mod text_key;
mod word;

pub use answer::Answer;
pub use borrowed::SliceKey;
pub use emitted::Emitted;
pub use faults::{Faults, keep_lesser};
pub use few::Few;
pub use key::{ByteKey, Key, NumKey, fnv1a};
pub use memory::{Memory, Stop};
pub use mr_defs::Fault;
pub use number::read_number;
pub use patterns::Patterns;
pub use queues::TaskQueues;
pub use ranges::Ranges;
pub use rows::{Rows, push_row};
pub use status::Status;
pub use text::Text;
pub use text_key::TextKey;
pub use word::Word;
