ghost use Rattle.std.specs.Prelude.{◌≢◌, ◌*◌, negsuc, pos, map};

use crate::threads::can_be_shared;
use mr_base::{Answer, Memory};
use mr_combine::{
    And, Both, Buffer, Combiner, Count, Distinct, List, Max, Median, Min, One, Or, Plain, Point,
    Reducer, Run, Single, Sum, VecSum, Xor,
};
use std::alloc::Global;
use std::test::Fail;

fn reads(answer: &Answer, want: &[i128]) -> bool {
    answer.len() == want.len() && (0..want.len()).all(|i| answer.number(i) == want[i])
}

// Whether 5 and 3 fold to these numbers by `add`, and by `merge` with a copy of a cell.
fn folds<C: Combiner<Value = i64>, R: Reducer<C>>(
    alloc: Global,
    want: &[i128],
) -> Result<bool, Memory> {
    let mut added = C::unit(alloc, 5)?;
    C::add(&mut added, 3)?;
    let mut merged = C::unit(alloc, 5)?;
    let other = C::unit(alloc, 3)?;
    C::merge(&mut merged, &C::copy(alloc, &other)?)?;
    let none_over = !C::is_over(&added) && !C::is_over(&merged);
    Ok(
        none_over
            && reads(&R::reduce(alloc, added)?, want)
            && reads(&R::reduce(alloc, merged)?, want),
    )
}

#[test]
fn folds_of_one_word(rt: HostRuntime) -> Result<(), Fail> {
    let alloc = rt.alloc();
    assert!(rt; folds::<Sum, Plain>(alloc, &[8])?);
    assert!(rt; folds::<Min, Plain>(alloc, &[3])?);
    assert!(rt; folds::<Max, Plain>(alloc, &[5])?);
    assert!(rt; folds::<One, Plain>(alloc, &[1])?);
    assert!(rt; folds::<Count, Plain>(alloc, &[2])?);
    assert!(rt; folds::<And, Plain>(alloc, &[1])?);
    assert!(rt; folds::<Or, Plain>(alloc, &[7])?);
    assert!(rt; folds::<Xor, Plain>(alloc, &[6])?);
    Ok(())
}

#[test]
fn folds_of_more(rt: HostRuntime) -> Result<(), Fail> {
    let alloc = rt.alloc();
    assert!(rt; folds::<Both<Min, Max>, Plain>(alloc, &[3, 5])?);
    assert!(rt; folds::<Both<Sum, Count>, Plain>(alloc, &[8, 2])?);
    assert!(rt; folds::<Buffer, List>(alloc, &[3, 5])?);
    assert!(rt; folds::<Buffer, Distinct>(alloc, &[3, 5])?);
    assert!(rt; folds::<Buffer, Median>(alloc, &[3])?);
    Ok(())
}

// Whether three values are over by `add`, and by `merge` of each cut into two cells.
fn over_each_way(alloc: Global, a: i64, b: i64, c: i64) -> Result<bool, Memory>
    requires first { a ≢ negsuc 9223372036854775807 }
    requires second { b ≢ negsuc 9223372036854775807 }
    requires third { c ≢ negsuc 9223372036854775807 }
{
    let mut front = Sum::unit(alloc, a)?;
    Sum::add(&mut front, b)?;
    let mut added = Sum::copy(alloc, &front)?;
    Sum::add(&mut added, c)?;
    Sum::merge(&mut front, &Sum::unit(alloc, c)?)?;
    let mut back = Sum::unit(alloc, b)?;
    Sum::add(&mut back, c)?;
    let mut first = Sum::unit(alloc, a)?;
    Sum::merge(&mut first, &back)?;
    Ok(Sum::is_over(&added) && Sum::is_over(&front) && Sum::is_over(&first))
}

#[test]
fn sums_over_in_any_order(rt: HostRuntime) -> Result<(), Fail> {
    let alloc = rt.alloc();
    assert!(rt; over_each_way(alloc, 9223372036854775807, 1, -5)?);
    assert!(rt; over_each_way(alloc, 9223372036854775807, -5, 1)?);
    assert!(rt; over_each_way(alloc, 1, 9223372036854775807, -5)?);
    assert!(rt; over_each_way(alloc, 1, -5, 9223372036854775807)?);
    assert!(rt; over_each_way(alloc, -5, 9223372036854775807, 1)?);
    assert!(rt; over_each_way(alloc, -5, 1, 9223372036854775807)?);
    Ok(())
}

// Numbers of units, each of which is so large that 255 of them come close to the largest magnitude.
#[derive(Drop)]
struct Units<'a> {
    counts: &'a [u8],
}

impl<'a> Run for Units<'a> {
    type Value = i64;

    ghost values = { λ u. map (λ n. pos (n * 36170086419038335)) u.counts.now };

    fn len(&self) -> usize {
        self.counts.len()
    }

    fn value(&self, at: usize) -> i64 {
        self.counts[at] as i64 * 36170086419038335
    }
}

// Whether a run and the same values one by one come to the same.
fn alike(alloc: Global, counts: &[u8]) -> Result<bool, Memory> {
    let run = Units { counts };
    let mut whole = Sum::unit(alloc, -7)?;
    Sum::add_run(&mut whole, &run)?;
    let mut single = Sum::unit(alloc, -7)?;
    for i in 0..run.len() {
        Sum::add(&mut single, run.value(i))?;
    }
    Ok(Sum::is_over(&whole) == Sum::is_over(&single) && Sum::number(&whole) == Sum::number(&single))
}

#[test]
fn runs_of_values(rt: HostRuntime) -> Result<(), Fail> {
    let alloc = rt.alloc();
    let cases: [&[u8]; 6] = [
        &[],
        &[1, 0, 2],
        &[255],
        &[250, 6],
        &[255, 255, 255],
        &[9; 40],
    ];
    for counts in cases {
        assert!(rt; alike(alloc, counts)?, "{counts:?}");
    }
    let mut count = Count::unit(alloc, 1)?;
    Count::add_run(&mut count, &Units { counts: &[4, 5] })?;
    assert!(rt; Count::number(&count) == 3 && Count::is_fixed() && !Buffer::is_fixed());
    Ok(())
}

// Cells and points go from one worker to another.
#[test]
fn cells_move_between_workers(rt: HostRuntime) -> Result<(), Fail> {
    let alloc = rt.alloc();
    let point = Point::of(alloc, &[1])?;
    assert!(rt; can_be_shared(&point) && can_be_shared(&VecSum::unit(alloc, point)?));
    assert!(rt; can_be_shared(&Both::<Sum, Count>::unit(alloc, 1)?));
    assert!(rt; can_be_shared(&Both::<Min, Xor>::unit(alloc, 1)?));
    assert!(rt; can_be_shared(&Buffer::unit(alloc, 1)?) && can_be_shared(&One::unit(alloc, 1)?));
    Ok(())
}

#[test]
fn points_of_unequal_lengths(rt: HostRuntime) -> Result<(), Fail> {
    let alloc = rt.alloc();
    let mut cell = VecSum::unit(alloc, Point::of(alloc, &[1, 2])?)?;
    VecSum::add(&mut cell, Point::of(alloc, &[3])?)?;
    let copied = VecSum::copy(alloc, &cell)?;
    assert!(rt;
        reads(
            &<Plain as Reducer<VecSum>>::reduce(alloc, copied)?,
            &[2, 4, 2]
        )
    );
    let mut other = VecSum::unit(alloc, Point::of(alloc, &[])?)?;
    VecSum::merge(&mut other, &cell)?;
    assert!(rt; !VecSum::is_over(&other));
    assert!(rt;
        reads(
            &<Plain as Reducer<VecSum>>::reduce(alloc, other)?,
            &[3, 4, 2]
        )
    );
    Ok(())
}

#[test]
fn values_in_order(rt: HostRuntime) -> Result<(), Fail> {
    let alloc = rt.alloc();
    let mut cell = Buffer::unit(alloc, 9)?;
    for value in [1, 5, 3, -5, 5] {
        Buffer::add(&mut cell, value)?;
    }
    let list = Buffer::copy(alloc, &cell)?;
    let distinct = Buffer::copy(alloc, &cell)?;
    assert!(rt; reads(&List::reduce(alloc, list)?, &[-5, 1, 3, 5, 5, 9]));
    assert!(rt; reads(&Distinct::reduce(alloc, distinct)?, &[-5, 1, 3, 5, 9]));
    assert!(rt; reads(&Median::reduce(alloc, cell)?, &[3]));
    Ok(())
}
