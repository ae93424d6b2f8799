ghost use Rattle.std.specs.Prelude.{◌≡◌, ◌<◌, ◌≤◌, ◌+◌, ◌⊎◌, true, length, is_some, IfOk};
ghost use Rattle.mr_outside.specs.Count.{Rose};
ghost use Rattle.mr_outside.specs.Shelf.{IsMissing, HasContent};
ghost use Rattle.mr_outside.specs.Reading.{IsFault, UnlessFault};

use crate::{Got, Shelf, Started};
use mr_base::{Memory, Stop};
use std::alloc::Global;
use std::marker::Model;

/// A read that failed.
#[derive(Clone, Copy, Debug, PartialEq, Eq)]
pub struct ReadFault;

/// Why [`read_all`] refused.
#[derive(Clone, Copy, Debug, PartialEq, Eq)]
pub enum ReadStop {
    /// A call of the shelf failed.
    Fault(ReadFault),
    /// The content goes past the limit.
    TooLong,
}

/// Bytes that were read whole.
#[derive(Drop)]
pub struct Taken {
    bytes: Vec<u8>,
}

impl Model for Taken {
    ghost use Rattle.std.specs.Prelude.{List, ℕ};

    ghost Value = { List ℕ };

    ghost view = { λ t. t.bytes.items };
}

impl Taken {
    /// These bytes, as if they had been read.
    pub fn of(bytes: Vec<u8>) -> Taken
        ensures { result ≡ bytes.items }
    {
        Taken { bytes }
    }

    /// The bytes, in their order.
    pub fn as_bytes(&self) -> &[u8]
        ensures { result.now ≡ self.now }
    {
        &self.bytes
    }
}

// The most bytes of one read.
const PIECE: usize = 65536;

fn zeros(alloc: Global, size: usize) -> Result<Vec<u8>, Memory>
    ensures { IfOk result (λ made. length made.items ≡ size) }
{
    Ok(vec![in alloc; 0u8; size]?)
}

/// Starts a name and reads it to its end, with at most `limit` bytes.
///
/// A content of more bytes is `TooLong`, once `limit + 1` bytes of it were read. A name that is not there is a `Fault`.
pub fn read_all<H: Shelf>(
    alloc: Global,
    shelf: &mut H,
    name: &str,
    limit: u64,
) -> Result<Taken, Stop<ReadStop>>
    requires { limit ≤ 134217728 }
    ensures kept { H.contents shelf.new ≡ H.contents shelf.old }
    ensures later { H.count shelf.old ≤ H.count shelf.new }
    ensures quiet { UnlessFault result (H.count shelf.new ≡ H.count shelf.old) }
    ensures started { UnlessFault result (H.is_started shelf.new ≡ true) }
    ensures named { is_some (H.contents shelf.old) ≡ true → H.is_started shelf.new ≡ true
        → H.started shelf.new ≡ name.now }

    ensures whole { IfOk result (λ taken.
        HasContent (H.contents shelf.old) name.now (λ content. taken ≡ content)) }
    ensures short { IfOk result (λ taken. (length taken ≤ limit) × (H.place shelf.new ≡ length taken)) }

    ensures too_long { result ≡ Err (Stop.Refused ReadStop.TooLong) → (H.place shelf.new ≡ limit + 1)
        × HasContent (H.contents shelf.old) name.now (λ content. limit < length content) }
    ensures at_limit { H.place shelf.new ≡ limit + 1
        → (result ≡ Err (Stop.Refused ReadStop.TooLong)) ⊎ (result ≡ Err Stop.Memory) }

    ensures missing { IsMissing (H.contents shelf.old) name.now → IsFault result }
    ensures fault { IsFault result
        → Rose (H.count shelf.old) (H.count shelf.new) ⊎ IsMissing (H.contents shelf.old) name.now }
{
    match shelf.start(name) {
        Started::Ready => {}
        Started::Failed => return Err(Stop::Refused(ReadStop::Fault(ReadFault))),
    }
    let mut buf = zeros(alloc, PIECE)?;
    let limit = limit as usize;
    let mut bytes: Vec<u8> = Vec::new(alloc);
    while bytes.len() <= limit {
        let room = (limit + 1 - bytes.len()).min(buf.len());
        let piece = &mut buf[..room];
        match shelf.read(piece) {
            Got::Bytes(n) => bytes.extend_from_slice(&piece[..n]).map_err(Memory::from)?,
            Got::End => return Ok(Taken { bytes }),
            Got::Failed => return Err(Stop::Refused(ReadStop::Fault(ReadFault))),
        }
    }
    Err(Stop::Refused(ReadStop::TooLong))
}
