ghost use Rattle.std.specs.Prelude.{◌<◌};

/// A queue of tasks for each worker, from which no other worker takes. Nothing of it is shared but two numbers.
#[derive(Drop)]
pub struct Blocks {
    pub(crate) tasks: u32,
    pub(crate) queues: u32,
    ghost some: { 0 < queues },
}

/// The place of one worker in its own queue.
#[derive(Drop)]
pub struct BlockPass {
    pub(crate) number: u32,
    // The first task of the queue, the one that is taken next, and the one behind the last.
    pub(crate) start: u32,
    pub(crate) next: u32,
    pub(crate) end: u32,
    pub(crate) ended: bool,
}
