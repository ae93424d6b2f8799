ghost use Rattle.std.specs.Prelude.{◌≡◌, ◌≤◌, true, is_some, length, IfOk, IfErr, IfSome, Ok};
ghost use Rattle.mr_defs.specs.Limits.{input_limit};
ghost use Rattle.mr_top.specs.Halts.{Halts, IsPastJob};
ghost use Rattle.mr_top.specs.RunEnding.{bytes_at};
ghost use Rattle.mr_top.specs.Stages.{ComesTo};

use crate::halt::Halt;
use mr_base::Stop;
use mr_outside::{ReadStop, Shelf, Taken, read_all};
use std::alloc::Global;

/// Reads the bytes of this name whole, or gives None where they are more than the limit, which is at most 134217728.
pub fn take_bytes<H: Shelf>(
    alloc: Global,
    shelf: &mut H,
    name: &str,
    limit: u64,
) -> Result<Option<Taken>, Halt>
    requires { limit ≤ input_limit }
    ensures kept { H.contents shelf.new ≡ H.contents shelf.old }
    ensures later { H.count shelf.old ≤ H.count shelf.new }
    ensures ok { IfOk result (λ read. ComesTo (H.contents shelf.old) (bytes_at name.now limit) (Ok read)) }
    ensures short { IfOk result (λ read. IfSome read (λ bytes. length bytes ≤ limit)) }
    ensures err { IfErr result (λ h. Halts h (H.contents shelf.old) (bytes_at name.now limit) (H.count shelf.old)
        (H.count shelf.new)) }
    ensures behind { IfErr result IsPastJob }
    ensures started { IfOk result (λ read. H.is_started shelf.new ≡ true) }
    ensures named { is_some (H.contents shelf.old) ≡ true → H.is_started shelf.new ≡ true → H.started shelf.new ≡ name.now }
    ensures whole { IfOk result (λ read. IfSome read (λ bytes. H.place shelf.new ≡ length bytes)) }
{
    match read_all(alloc, shelf, name, limit) {
        Ok(taken) => Ok(Some(taken)),
        Err(Stop::Refused(ReadStop::TooLong)) => Ok(None),
        Err(Stop::Refused(ReadStop::Fault(_))) => Err(Halt::Read),
        Err(Stop::Memory) => Err(Halt::Memory),
    }
}
