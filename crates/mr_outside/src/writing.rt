ghost use Rattle.std.specs.Prelude.{◌≡◌, ◌≤◌, OnOk, OnErr};
ghost use Rattle.std.specs.Io.KnownBytes.{Appends};
ghost use Rattle.mr_outside.specs.Count.{Rose};
ghost use Rattle.mr_outside.specs.Sink.{AppendsPart};

use crate::{Put, Sink};

/// A write that failed.
#[derive(Clone, Copy, Debug, PartialEq, Eq)]
pub struct WriteFault;

/// Writes all bytes. After a fault the sink has gained a proper front of them, which may be empty.
pub fn put_all<O: Sink>(out: &mut O, bytes: &[u8]) -> Result<(), WriteFault>
    ensures later { O.count out.old ≤ O.count out.new }
    ensures quiet { OnOk result (O.count out.new ≡ O.count out.old) }
    ensures whole { OnOk result (Appends (O.held out.old) (O.held out.new) bytes.now) }
    ensures part { OnErr result (AppendsPart (O.held out.old) (O.held out.new) bytes.now) }
    ensures cause { OnErr result (Rose (O.count out.old) (O.count out.new)) }
{
    let mut done = 0;
    while done < bytes.len() {
        match out.write(&bytes[done..]) {
            Put::Took(n) => done += n,
            Put::Failed => return Err(WriteFault),
        }
    }
    Ok(())
}
