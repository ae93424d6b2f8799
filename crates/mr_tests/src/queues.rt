ghost use Rattle.mr_queues.specs.Queues.{IsAnyOf};

use mr_base::{Memory, Ranges, TaskQueues};
use mr_capacity::QueueKind;
use mr_queues::{AnyPass, AnyQueues};
use std::alloc::Global;
use std::test::Fail;
use std::thread::{Threads, join};

// The tasks that a pass takes, a bit for each.
fn taken(queues: &AnyQueues, mut pass: AnyPass) -> u32
    requires { IsAnyOf queues.now pass }
{
    let mut tasks = 0;
    for _ in 0..16 {
        if let Some(task) = queues.take(&mut pass) {
            tasks ^= 1 << (task % 16);
        }
    }
    tasks
}

// The tasks that two workers take beside each other, a bit for each that one of them took.
fn taken_by_two<R: Threads>(rt: &R, alloc: Global, kind: QueueKind) -> Result<u32, Memory> {
    let ranges = Ranges::even(alloc, 7, 2)?;
    let (queues, mut passes) = AnyQueues::of(alloc, kind, &ranges)?;
    let Some(second) = passes.pop() else {
        return Ok(0);
    };
    let Some(first) = passes.pop() else {
        return Ok(0);
    };
    let queues = &queues;
    let (one, other) = join(
        rt,
        move ||
            requires { IsAnyOf queues.now first }
        { taken(queues, first) },
        move ||
            requires { IsAnyOf queues.now second }
        { taken(queues, second) },
    );
    Ok(one ^ other)
}

#[test]
fn each_task_once(rt: HostRuntime) -> Result<(), Fail> {
    for kind in [QueueKind::Blocks, QueueKind::Ranges, QueueKind::Deques] {
        assert_eq!(rt; taken_by_two(&rt, rt.alloc(), kind)?, 127);
    }
    Ok(())
}

// What the first of two passes over three tasks takes at four calls, and then the second at three.
fn taken_in_turn(alloc: Global, kind: QueueKind) -> Result<[Option<u32>; 7], Memory> {
    let ranges = Ranges::even(alloc, 3, 2)?;
    let (queues, mut passes) = AnyQueues::of(alloc, kind, &ranges)?;
    let Some(mut second) = passes.pop() else {
        return Err(Memory);
    };
    let Some(mut first) = passes.pop() else {
        return Err(Memory);
    };
    Ok([
        queues.take(&mut first),
        queues.take(&mut first),
        queues.take(&mut first),
        queues.take(&mut first),
        queues.take(&mut second),
        queues.take(&mut second),
        queues.take(&mut second),
    ])
}

#[test]
fn each_takes_until_none(rt: HostRuntime) -> Result<(), Fail> {
    let alloc = rt.alloc();
    let own = [Some(0), None, None, None, Some(1), Some(2), None];
    let all = [Some(0), Some(1), Some(2), None, None, None, None];
    assert!(rt; taken_in_turn(alloc, QueueKind::Blocks)? == own);
    assert!(rt; taken_in_turn(alloc, QueueKind::Ranges)? == all);
    assert!(rt; taken_in_turn(alloc, QueueKind::Deques)? == all);
    Ok(())
}
