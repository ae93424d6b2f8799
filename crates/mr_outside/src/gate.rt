/// What is passed before each task of a map phase. It is shared by the workers' threads.
pub trait Gate {
    /// Lets the worker of this number begin the task of this number. It returns and says nothing.
    fn enter(&self, worker: u32, task: u32);
}

/// A gate that stands open.
#[derive(Clone, Copy, Debug, PartialEq, Eq)]
pub struct PassGate;

impl PassGate {
    /// A gate that holds nobody.
    pub fn new() -> PassGate {
        PassGate
    }
}

impl Gate for PassGate {
    fn enter(&self, _worker: u32, _task: u32) {}
}
