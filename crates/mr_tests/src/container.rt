ghost use Rattle.std.specs.Prelude.{◌-◌, ◌∷◌, [], pos};
ghost use Rattle.mr_defs.specs.Emission.{Pair};

use crate::shown::shown;
use mr_base::{ByteKey, Memory, NumKey};
use mr_combine::Sum;
use mr_container::{Local, Mapper, SortedLocal, map_all};
use std::alloc::Global;
use std::test::Fail;

fn few_words(alloc: Global) -> Result<SortedLocal<ByteKey, Sum>, Memory> {
    let mut local = SortedLocal::new(alloc);
    let emitted: [(&[u8], i32); 7] = [
        (b"m", 3),
        (b"b", -4),
        (b"zz", 1),
        (b"", 7),
        (b"a", 9),
        (b"b", 5),
        (b"z", 0),
    ];
    for (key, value) in emitted {
        local.emit(ByteKey::of(alloc, key)?, value as i64)?;
    }
    Ok(local)
}

// The hashes of the keys modulo 3 are 1 of a, b and z, and 2 of m, zz and the empty key.
#[test]
fn cells_part_by_part(rt: HostRuntime) -> Result<(), Fail> {
    let alloc = rt.alloc();
    let local = few_words(alloc)?;
    assert!(rt; local.cells() == 6);
    assert!(rt; shown(alloc, &local, 1)?.as_bytes() == b"=7 a=9 b=1 m=3 z=0 zz=1 |".as_slice());
    assert!(rt; shown(alloc, &local, 3)?.as_bytes() == b"|a=9 b=1 z=0 |=7 m=3 zz=1 |".as_slice());
    let all = shown(alloc, &local, 64)?;
    let bars =
        b"||||||||||||a=9 |||||||||zz=1 |||m=3 |||||||||||||=7 b=1 ||||||||z=0 |||||||||||||||||||";
    assert!(rt; all.as_bytes() == bars.as_slice());
    Ok(())
}

#[test]
fn least_faults(rt: HostRuntime) -> Result<(), Fail> {
    let alloc = rt.alloc();
    let mut local: SortedLocal<NumKey, Sum> = SortedLocal::new(alloc);
    local.malformed(9);
    local.malformed(4);
    local.malformed(6);
    local.too_large(NumKey(8));
    local.too_large(NumKey(5));
    local.too_large(NumKey(7));
    assert!(rt; local.faults().malformed == Some(4));
    assert!(rt; local.faults().over == Some(NumKey(5)));
    assert!(rt; local.faults().outside.is_none() && local.faults().twice.is_none());
    assert!(rt; local.cells() == 0);
    Ok(())
}

// Each task emits the key of the task that stands as far from the end.
#[derive(Drop)]
struct Backward {
    count: u32,
}

impl Mapper for Backward {
    ghost use Rattle.std.specs.Prelude.{◌-◌};

    type Key = NumKey;

    type Value = i64;

    ghost task_count = { λ m. m.count };

    ghost task_emissions = { λ m t. Pair (m.count - 1 - t) (pos 2) ∷ [] };

    fn tasks(&self) -> u32 {
        self.count
    }

    fn map<L: Local<Key = NumKey, Value = i64>>(
        &self,
        alloc: Global,
        task: u32,
        out: &mut L,
    ) -> Result<(), Memory> {
        out.emit(NumKey((self.count - 1 - task) as u64), 2)
    }
}

#[test]
fn all_tasks(rt: HostRuntime) -> Result<(), Fail> {
    let alloc = rt.alloc();
    let mut local: SortedLocal<NumKey, Sum> = SortedLocal::new(alloc);
    let mapper = Backward { count: 3 };
    map_all(alloc, &mapper, &mut local)?;
    map_all(alloc, &mapper, &mut local)?;
    assert!(rt; shown(alloc, &local, 1)?.as_bytes() == b"0=4 1=4 2=4 |".as_slice());
    Ok(())
}
