//! The words of the command `mapred [--workers N] [--mode run|check|generate] [--report] JOB [INPUT..]`.
//!
//! The words are read by `clap` as one simple command without help and version, and its stated reading decides which words are accepted.
//! The values are judged on top of it: a number of workers from 1 to 32 without a sign or a leading zero, a mode, and the inputs that the
//! mode takes.
//!
//! Its promise: `read_command` gives exactly what the form of the words is, and refuses them exactly where they have none.
#![tactic(auto)]

mod command;
mod parse;
mod value;

pub use command::{Command, Mode, Usage, read_command};
