ghost use Rattle.std.specs.Prelude.{◌≡◌};
ghost use Rattle.mr_top.specs.Halts.{halt_of, line_of_halt, status_of_halt};
ghost use Rattle.mr_top.specs.declared.halt.Halt.TheVariants as halt;

use mr_base::{Memory, Status, Stop};
use mr_jobs::Refusal;

/// Why a run ends before its first write.
#[derive(Drop)]
pub enum Halt {
    /// The words of the command have no form.
    Usage,
    /// The job file or an input is refused.
    Refused(Refusal),
    /// A name isn't there, or a read failed.
    Read,
    /// Memory was wanted.
    Memory,
}

impl From<Memory> for Halt {
    ghost from_gives = { λ _ h. h ≡ halt.Memory };

    fn from(_: Memory) -> Halt {
        Halt::Memory
    }
}

impl From<Stop<Refusal>> for Halt {
    ghost from_gives = { λ stop h. h ≡ halt_of stop };

    fn from(stop: Stop<Refusal>) -> Halt {
        match stop {
            Stop::Refused(refusal) => Halt::Refused(refusal),
            Stop::Memory => Halt::Memory,
        }
    }
}

/// The line of `Usage`.
pub const USAGE_LINE: &[u8] = b"fault: usage\n";

/// The line of `ReadFault`.
pub const READ_LINE: &[u8] = b"fault: read\n";

/// The line of `WriteFault`.
pub const WRITE_LINE: &[u8] = b"fault: write\n";

/// The line of `Memory`.
pub const MEMORY_LINE: &[u8] = b"fault: memory\n";

impl Halt {
    /// The status of a run that ends so.
    pub fn status(&self) -> Status
        ensures { result ≡ status_of_halt self.now }
    {
        match self {
            Halt::Usage => Status::Usage,
            Halt::Refused(refusal) => refusal.status,
            Halt::Read => Status::ReadFault,
            Halt::Memory => Status::Memory,
        }
    }

    /// The line that says so. The lines that are always the same take no memory.
    pub fn line(&self) -> &[u8]
        ensures { result.now ≡ line_of_halt self.now }
    {
        match self {
            Halt::Usage => USAGE_LINE,
            Halt::Refused(refusal) => refusal.line.as_bytes(),
            Halt::Read => READ_LINE,
            Halt::Memory => MEMORY_LINE,
        }
    }
}
