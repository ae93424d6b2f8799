//! The run of a command: from its words, the job file and the inputs to the output.
//!
//! How a run ends is one function of its words and of the contents by name, `run_ending` in `specs/`, in stages: the words' form, the job
//! of the job file, the number and the bytes of the inputs, or the text that is generated, and what the job comes to on them. Each passes a
//! value on or refuses.
//!
//! Its promise, as clauses of `run`: the bytes of that end follow what the output held, or its one refusal is given and the output
//! gains nothing; a read or a write fault comes only where a count rose, or a name isn't there. Want of memory alone is free.
#![tactic(auto)]

mod finished;
mod halt;
mod inputs;
mod job;
mod modes;
mod reading;
mod running;

pub use halt::{MEMORY_LINE, USAGE_LINE};
pub use running::run;
