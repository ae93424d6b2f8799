use crate::shown::shown;
use mr_array::{ArrayLocal, Fixed};
use mr_base::NumKey;
use mr_combine::{Buffer, Combiner, Run, Sum};
use mr_container::{Local, Parted, SortedLocal};
use std::test::Fail;

#[test]
fn keys_below_and_not_below(rt: HostRuntime) -> Result<(), Fail> {
    let alloc = rt.alloc();
    let mut local: ArrayLocal<Sum, Fixed<16>> = ArrayLocal::new(alloc, 16)?;
    local.emit(NumKey(16), 1)?;
    local.emit(NumKey(15), 4)?;
    local.emit(NumKey(40), 1)?;
    assert!(rt; local.cells() == 1);
    assert!(rt; local.faults().outside == Some(NumKey(16)));
    assert!(rt; shown(alloc, &local, 1)?.as_bytes() == b"15=4 |".as_slice());
    Ok(())
}

#[test]
fn least_faults(rt: HostRuntime) -> Result<(), Fail> {
    let mut local: ArrayLocal<Sum, Fixed<16>> = ArrayLocal::new(rt.alloc(), 16)?;
    local.emit(NumKey(16), 1)?;
    local.too_large(NumKey(9));
    local.too_large(NumKey(12));
    local.too_large(NumKey(17));
    local.malformed(8);
    assert!(rt;
        local.faults().over == Some(NumKey(9)) && local.faults().outside == Some(NumKey(16))
    );
    assert!(rt; local.faults().malformed == Some(8) && local.faults().twice.is_none());
    assert!(rt; local.cells() == 0);
    Ok(())
}

#[test]
fn cells_part_by_part(rt: HostRuntime) -> Result<(), Fail> {
    let alloc = rt.alloc();
    let mut local: ArrayLocal<Sum, Fixed<768>> = ArrayLocal::new(alloc, 768)?;
    for (key, value) in [(767u32, 5i32), (0, 1), (65, -2), (6, 3), (65, 7), (1, 8)] {
        local.emit(NumKey(key as u64), value as i64)?;
    }
    assert!(rt; local.cells() == 5);
    assert!(rt; shown(alloc, &local, 1)?.as_bytes() == b"0=1 1=8 6=3 65=5 767=5 |".as_slice());
    assert!(rt; shown(alloc, &local, 3)?.as_bytes() == b"0=1 6=3 |1=8 |65=5 767=5 |".as_slice());
    let bars =
        b"0=1 |1=8 65=5 |||||6=3 |||||||||||||||||||||||||||||||||||||||||||||||||||||||||767=5 |";
    assert!(rt; shown(alloc, &local, 64)?.as_bytes() == bars.as_slice());
    Ok(())
}

// The numbers of a list, as a run.
#[derive(Drop)]
struct Numbers<'a> {
    numbers: &'a [i32],
}

impl<'a> Run for Numbers<'a> {
    type Value = i64;

    ghost values = { λ n. n.numbers.now };

    fn len(&self) -> usize {
        self.numbers.len()
    }

    fn value(&self, at: usize) -> i64 {
        self.numbers[at] as i64
    }
}

#[test]
fn runs_of_one_key(rt: HostRuntime) -> Result<(), Fail> {
    let alloc = rt.alloc();
    let mut local: ArrayLocal<Sum, Fixed<16>> = ArrayLocal::new(alloc, 16)?;
    let mut plain: SortedLocal<NumKey, Sum> = SortedLocal::new(alloc);
    let runs: [(u32, &[i32]); 5] = [
        (3, &[4, -9, 2147483647]),
        (3, &[-1]),
        (15, &[7, 7]),
        (0, &[]),
        (3, &[1, 2]),
    ];
    for (key, numbers) in runs {
        let key = NumKey(key as u64);
        local.emit_run(alloc, &key, &Numbers { numbers })?;
        plain.emit_run(alloc, &key, &Numbers { numbers })?;
    }
    let want = b"3=2147483644 15=14 |".as_slice();
    assert!(rt; shown(alloc, &local, 1)?.as_bytes() == want);
    assert!(rt; shown(alloc, &plain, 1)?.as_bytes() == want);
    assert!(rt; local.spares_all() && !plain.spares_all());
    Ok(())
}

#[test]
fn runs_of_a_key_outside(rt: HostRuntime) -> Result<(), Fail> {
    let alloc = rt.alloc();
    let mut local: ArrayLocal<Sum, Fixed<16>> = ArrayLocal::new(alloc, 16)?;
    local.emit_run(alloc, &NumKey(16), &Numbers { numbers: &[] })?;
    assert!(rt; local.faults().outside.is_none());
    local.emit_run(alloc, &NumKey(17), &Numbers { numbers: &[1, 2] })?;
    assert!(rt; local.faults().outside == Some(NumKey(17)) && local.cells() == 0);
    Ok(())
}

#[test]
fn values_of_a_buffer(rt: HostRuntime) -> Result<(), Fail> {
    let alloc = rt.alloc();
    let mut local: ArrayLocal<Buffer, Fixed<1>> = ArrayLocal::new(alloc, 1)?;
    local.emit(NumKey(0), 4)?;
    local.emit(NumKey(0), 2)?;
    let mut cursor = local.cursor(0, 1);
    assert!(rt;
        local
            .next(&mut cursor)
            .is_some_and(|(_, cell)| !Buffer::is_over(cell))
    );
    assert!(rt; local.next(&mut cursor).is_none());
    assert!(rt; local.cells() == 1);
    Ok(())
}
