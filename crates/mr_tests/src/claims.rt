use mr_base::{Ranges, TaskQueues};
use mr_claims::Claims;
use std::test::Fail;

#[test]
fn one_pass_takes_all(rt: HostRuntime) -> Result<(), Fail> {
    let alloc = rt.alloc();
    let ranges = Ranges::even(alloc, 3, 2)?;
    let (claims, mut passes) = Claims::open(alloc, &ranges)?;
    let Some(mut second) = passes.pop() else {
        panic!(rt; "a pass is missing");
    };
    let Some(mut first) = passes.pop() else {
        panic!(rt; "a pass is missing");
    };
    assert!(rt; claims.take(&mut first) == Some(0));
    assert!(rt; claims.take(&mut first) == Some(1));
    assert!(rt; claims.take(&mut first) == Some(2));
    assert!(rt; claims.take(&mut first).is_none());
    assert!(rt; claims.take(&mut second).is_none());
    Ok(())
}
