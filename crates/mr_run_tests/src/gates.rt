use mr_outside::Gate;
use std::sync::atomic::{AtomicU64, Ordering};
use std::thread;

// How often a gate looks before it lets a task go on, and how often it lets others go on meanwhile.
const LOOKS: u64 = 100000000;

const TURN: u64 = 64;

/// A gate that notes who took each of four tasks, and the order in which the calls came; it may hold the tasks 0 and 1 until the other has
/// begun.
#[derive(Drop)]
pub struct NotingGate {
    held: u32,
    late: AtomicU64,
    calls: AtomicU64,
    tasks: [AtomicU64; 4],
}

impl NotingGate {
    /// A gate that holds no task, task 0 alone, or the tasks 0 and 1: as many as are told.
    pub fn new(held: u32) -> NotingGate {
        NotingGate {
            held,
            late: AtomicU64::new(0),
            calls: AtomicU64::new(0),
            tasks: [
                AtomicU64::new(0),
                AtomicU64::new(0),
                AtomicU64::new(0),
                AtomicU64::new(0),
            ],
        }
    }

    /// Whether each task that was held went on because the other had begun.
    pub fn in_time(&self) -> bool {
        self.late.load(Ordering::SeqCst) == 0
    }

    // Holds a task until this one has begun, or for as long as it looks.
    fn hold_for(&self, other: usize) {
        for look in 0..LOOKS {
            if self.note(other) != 0 {
                return;
            }
            if look % TURN == 0 {
                thread::yield_now();
            }
        }
        self.late.fetch_add(1, Ordering::SeqCst);
    }

    /// What is noted of a task: the number of the call, from 1, and the worker that it came from, as one number. It is 0 where there was no
    /// call.
    pub fn note(&self, task: usize) -> u64 {
        if task < 4 {
            self.tasks[task].load(Ordering::SeqCst)
        } else {
            0
        }
    }

    /// The task that this worker began at this call.
    pub fn began(&self, call: u64, worker: u64) -> Option<usize> {
        for task in 0..4 {
            if self.note(task) == noted(call, worker) {
                return Some(task);
            }
        }
        None
    }
}

fn noted(call: u64, worker: u64) -> u64 {
    call % 1000 * 64 + worker % 64
}

impl Gate for NotingGate {
    fn enter(&self, worker: u32, task: u32) {
        let call = self.calls.fetch_add(1, Ordering::SeqCst) % 1000 + 1;
        if task < 4 {
            self.tasks[task as usize].store(noted(call, worker as u64), Ordering::SeqCst);
        }
        if task < self.held && task < 2 {
            self.hold_for(1 - task as usize);
        }
    }
}
