ghost use Rattle.std.specs.Prelude.{◌≡◌, IfOk, length};

use mr_base::{Few, Memory};
use mr_report::{Share, report};
use std::alloc::Global;
use std::test::Fail;

// A round of a worker that took two tasks and one that took none.
fn round(alloc: Global, first: u32, second: u32) -> Result<Few<Share>, Memory>
    ensures { IfOk result (λ shares. length shares.items ≡ 2) }
{
    let mut shares = Few::with_room(alloc, 2)?;
    let mut tasks = Few::with_room(alloc, 2)?;
    tasks.push(first);
    tasks.push(second);
    shares.push(Share { tasks, cells: 7 });
    shares.push(Share {
        tasks: Few::with_room(alloc, 0)?,
        cells: 0,
    });
    Ok(shares)
}

#[test]
fn rounds_and_workers(rt: HostRuntime) -> Result<(), Fail> {
    let alloc = rt.alloc();
    let rounds = [round(alloc, 2, 10)?, round(alloc, 0, 4294967295)?];
    let text = report(alloc, &rounds)?;
    let lines = b"round 1 worker 0 cells 7 tasks 2 10\nround 1 worker 1 cells 0 tasks\n\
round 2 worker 0 cells 7 tasks 0 4294967295\nround 2 worker 1 cells 0 tasks\n";
    assert!(rt; text.as_bytes() == lines.as_slice());
    Ok(())
}
