use crate::threads::can_be_shared;
use mr_base::{Ranges, TaskQueues};
use mr_deques::Deques;
use std::test::Fail;

#[test]
fn one_pass_takes_all(rt: HostRuntime) -> Result<(), Fail> {
    let alloc = rt.alloc();
    let ranges = Ranges::even(alloc, 3, 2)?;
    let (deques, mut passes) = Deques::open(alloc, &ranges)?;
    assert!(rt; can_be_shared(&deques));
    let Some(mut second) = passes.pop() else {
        panic!(rt; "a pass is missing");
    };
    let Some(mut first) = passes.pop() else {
        panic!(rt; "a pass is missing");
    };
    assert!(rt; deques.take(&mut first) == Some(0));
    assert!(rt; deques.take(&mut first) == Some(1));
    assert!(rt; deques.take(&mut first) == Some(2));
    assert!(rt; deques.take(&mut first).is_none());
    assert!(rt; deques.take(&mut second).is_none());
    Ok(())
}
