//! What a run reads and writes: shelves of named contents, sinks for bytes, and a gate before each task.
//!
//! A shelf is seen as its contents by name where it tells them, the name that is started, the place reached
//! in it and a count of faults. A sink is seen as the bytes that it holds where it tells them, and a count of faults.
//!
//! The promise: [`read_all`] gives the whole content of a name and [`put_all`] writes all bytes. Otherwise the
//! count of faults rose in that very call, the name is not there, the content is too long or memory is wanting.
#![tactic(auto)]

mod calls;
mod gate;
mod machine;
mod memory_shelf;
mod memory_sink;
mod reading;
mod shelf;
mod sink;
mod writing;

pub use gate::{Gate, PassGate};
pub use machine::{FileShelf, StdSink};
pub use memory_shelf::MemoryShelf;
pub use memory_sink::MemorySink;
pub use reading::{ReadFault, ReadStop, Taken, read_all};
pub use shelf::{Got, Shelf, Started};
pub use sink::{Put, Sink};
pub use writing::{WriteFault, put_all};
