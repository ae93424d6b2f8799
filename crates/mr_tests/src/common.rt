ghost use Rattle.std.specs.Prelude.{◌≡◌, ◌≤◌};
ghost use Rattle.mr_common.specs.Passes.{IsPassOf};

use mr_base::{Memory, NumKey};
use mr_common::{CommonArray, CommonPass, Emitted};
use std::alloc::Global;
use std::test::Fail;
use std::thread::{Threads, join};

#[test]
fn the_first_of_two_passes_wins(rt: HostRuntime) -> Result<(), Fail> {
    let alloc = rt.alloc();
    let (array, mut passes) = CommonArray::new(alloc, 16, 2)?;
    let Some(mut second) = passes.pop() else {
        panic!(rt; "a pass is missing");
    };
    let Some(mut first) = passes.pop() else {
        panic!(rt; "a pass is missing");
    };
    assert!(rt; matches!(array.emit(&mut first, 3, 7), Emitted::Won));
    assert!(rt; matches!(array.emit(&mut second, 3, 8), Emitted::Twice));
    assert!(rt; matches!(array.emit(&mut second, 16, 1), Emitted::Outside));
    passes.push(first);
    passes.push(second);
    let rows = array.finish(alloc, passes)?;
    assert!(rt; rows.len() == 1);
    assert!(rt; rows.key(0) == &NumKey(3));
    Ok(())
}

// Emits each of 64 keys, and counts those that were won.
fn won(array: &CommonArray, mut pass: CommonPass) -> u32
    requires { IsPassOf array.now.table.shared.table_id array.now.size pass }
{
    let mut count = 0u32;
    for key in 0..64u64 {
        if matches!(array.emit(&mut pass, key, 5), Emitted::Won) {
            count = count.wrapping_add(1);
        }
    }
    count
}

// How many of 64 keys two workers win that emit them beside each other.
fn won_by_two<R: Threads>(rt: &R, alloc: Global) -> Result<u32, Memory> {
    let (array, mut passes) = CommonArray::new(alloc, 64, 2)?;
    let Some(second) = passes.pop() else {
        return Ok(0);
    };
    let Some(first) = passes.pop() else {
        return Ok(0);
    };
    let array = &array;
    let (one, other) = join(
        rt,
        move ||
            requires { IsPassOf array.now.table.shared.table_id array.now.size first }
        { won(array, first) },
        move ||
            requires { IsPassOf array.now.table.shared.table_id array.now.size second }
        { won(array, second) },
    );
    Ok(one.wrapping_add(other))
}

#[test]
fn two_workers_win_each_key_once(rt: HostRuntime) -> Result<(), Fail> {
    for _ in 0..20 {
        assert_eq!(rt; won_by_two(&rt, rt.alloc())?, 64);
    }
    Ok(())
}
