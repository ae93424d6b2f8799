//! The jobs over the words of a text, and the text of rows.
//!
//! `WordJob` says of a job which pair a word is emitted as, and `Words` cuts the text into tasks: a task is a piece, and emits the pairs of
//! the words that begin in it, one after the other. `SliceWords` is the same for keys that borrow the text. A job over words is an
//! `impl WordJob`, in whichever crate it stands. A piece is scanned once, strip by strip, and takes no memory but its edges, its block and
//! the keys that the job makes.
//!
//! Its promise: a task emits exactly the pairs of the words of its piece, all tasks together those of the whole text, and a text is that of
//! its rows.
#![tactic(auto)]

mod rows;
mod slice_words;
mod strips;
mod word_count;
mod word_job;
mod words;

pub use rows::rows_text;
pub use slice_words::SliceWords;
pub use strips::{BLOCK, EDGES, emit_words};
pub use word_count::{CountedWords, WordCount};
pub use word_job::{TextJob, WordJob};
pub use words::Words;
