ghost use Rattle.std.specs.Prelude.{◌≡◌};

use std::alloc::{AllocError, AllocFailed};

/// Want of memory.
#[derive(Clone, Copy, Debug, PartialEq, Eq)]
pub struct Memory;

impl From<AllocError> for Memory {
    fn from(_: AllocError) -> Memory {
        Memory
    }
}

impl<T: Drop> From<AllocFailed<T>> for Memory {
    fn from(_: AllocFailed<T>) -> Memory {
        Memory
    }
}

/// Why a call gives no value: it was refused for a cause `F`, or memory was wanted.
#[derive(Debug, Drop)]
pub enum Stop<F> {
    Refused(F),
    Memory,
}

impl<F: Drop> From<Memory> for Stop<F> {
    ghost use Rattle.mr_base.specs.declared.memory.Stop.TheVariants as stop;

    ghost from_gives = { λ _ s. s ≡ stop.Memory };

    fn from(_: Memory) -> Stop<F> {
        Stop::Memory
    }
}
