ghost use Rattle.std.specs.Prelude.{◌≡◌, ◌≤◌, ◌<◌, ◌*◌, ◌^◌, nat_abs, length, true, refl};
ghost use Rattle.std.specs.Int.{int_wrap, w64};
ghost use Rattle.std.specs.Option.{is_none};
ghost use Rattle.mr_defs.specs.Folded.{limit, magnitude, total, sum_folded};
ghost use Rattle.mr_combine.specs.Bounded.{within};
ghost use Rattle.mr_combine.specs.Runs.{added};
ghost use Rattle.mr_combine.specs.Sums.{sum_fits, sum_unit, sum_merged, sum_commutative, sum_number, sum_is_fold, sum_stays_over};

use crate::LIMIT;
use crate::combiner::{Combiner, FixedCombiner};
use crate::run::Run;
use crate::single::Single;
use mr_base::Memory;
use std::alloc::Global;
use std::marker::Model;

/// The sum of values, seen beside the sum of their magnitudes, or as None where the latter passed 9223372036854775807.
#[derive(Debug, Drop)]
pub struct SumCell {
    sum: i64,
    magnitudes: u64,
}

impl Model for SumCell {
    ghost use Rattle.std.specs.Prelude.{◌≤◌, nat_abs, Option};
    ghost use Rattle.mr_defs.specs.Folded.{limit};
    ghost use Rattle.mr_combine.specs.Sums.{Summed, sum_fits};
    ghost use Rattle.mr_combine.specs.Bounded.{within};

    ghost Value = { Option Summed };

    ghost view = { λ c. within (sum_fits limit) (c.sum, c.magnitudes) };

    ghost invariant = { λ c. c.magnitudes ≤ limit → nat_abs c.sum ≤ c.magnitudes };
}

impl SumCell {
    /// The sum of one value.
    pub fn of(value: i64) -> SumCell
        ensures { result ≡ sum_unit limit value }
    {
        SumCell {
            sum: value,
            magnitudes: value.unsigned_abs(),
        }
    }

    /// Adds a value.
    pub fn add(&mut self, value: i64)
        ensures { self.new ≡ sum_merged limit self.old (sum_unit limit value) }
    {
        add_to(self, value, value.unsigned_abs());
    }

    /// Adds the values of a run.
    pub fn add_run<R: Run<Value = i64>>(&mut self, run: &R)
        ensures { self.new ≡ added (sum_unit limit) (sum_merged limit) self.old (R.values run.now) }
    {
        let sums = sums_of(run);
        if is_within(sums.bound, run.len()) {
            add_to(self, sums.sum, sums.magnitudes);
        } else {
            add_each(self, run);
        }
    }

    /// The same sum.
    pub fn copy(&self) -> SumCell
        ensures { result ≡ self.now }
    {
        SumCell {
            sum: self.sum,
            magnitudes: self.magnitudes,
        }
    }

    /// Adds another sum.
    pub fn merge(&mut self, from: &SumCell)
        ensures { self.new ≡ sum_merged limit self.old from.now }
    {
        add_to(self, from.sum, from.magnitudes);
    }

    /// Whether the magnitudes passed the limit.
    pub fn is_over(&self) -> bool
        ensures { result ≡ is_none self.now }
    {
        self.magnitudes > LIMIT
    }

    /// The sum, or 0 where it is over.
    pub fn number(&self) -> i128
        ensures { result ≡ sum_number self.now }
    {
        if self.is_over() { 0 } else { self.sum as i128 }
    }
}

/// Adds a sum whose magnitudes add up to `magnitudes`. Past the limit the sum wraps, and means nothing.
fn add_to(cell: &mut SumCell, sum: i64, magnitudes: u64)
    requires { magnitudes ≤ limit → nat_abs sum ≤ magnitudes }
    ensures { cell.new ≡ sum_merged limit cell.old (within (sum_fits limit) (sum, magnitudes)) }
{
    cell.sum = cell.sum.wrapping_add(sum);
    cell.magnitudes = cell.magnitudes.saturating_add(magnitudes);
}

// What the values of a run come to, where their magnitudes add up to less than 64 bits hold.
#[derive(Drop)]
struct RunSums {
    // wraps
    sum: i64,
    // wrap
    magnitudes: u64,
    // no magnitude is over it
    bound: u64,
}

// The sums of a run.
#[inline(always)]
fn sums_of<R: Run<Value = i64>>(run: &R) -> RunSums
    ensures sum { result.sum ≡ int_wrap w64 (total (R.values run.now)) }
    ensures magnitudes { magnitude (R.values run.now) < 2 ^ 64 → result.magnitudes ≡ magnitude (R.values run.now) }
    ensures bound { magnitude (R.values run.now) ≤ length (R.values run.now) * result.bound }
{
    let mut sum = 0i64;
    let mut magnitudes = 0u64;
    let mut bound = 0u64;
    for i in 0..run.len() {
        let value = run.value(i);
        let size = value.unsigned_abs();
        sum = sum.wrapping_add(value);
        magnitudes = magnitudes.wrapping_add(size);
        bound |= size;
    }
    RunSums {
        sum,
        magnitudes,
        bound,
    }
}

// Whether there are values, so many, and their magnitudes, none of them over a bound, add up to less than 64 bits hold.
fn is_within(bound: u64, count: usize) -> bool
    ensures some { result ≡ true → 1 ≤ count }
    ensures within { result ≡ true → count * bound < 2 ^ 64 }
{
    count > 0 && bound.checked_mul(count as u64).is_some()
}

// Adds the values of a run, one by one.
fn add_each<R: Run<Value = i64>>(cell: &mut SumCell, run: &R)
    ensures { cell.new ≡ added (sum_unit limit) (sum_merged limit) cell.old (R.values run.now) }
{
    for i in 0..run.len() {
        cell.add(run.value(i));
    }
}

/// Adds the values of a key, and answers the sum. Over where their magnitudes add up past 9223372036854775807.
pub struct Sum;

impl Combiner for Sum {
    type Value = i64;

    type Cell = SumCell;

    ghost unit_of = { sum_unit limit };

    ghost merged = { sum_merged limit };

    ghost over = { is_none };

    ghost fixed = { true };

    ghost laws = { sum_commutative limit };

    ghost stays_over = { sum_stays_over limit };

    fn is_fixed() -> bool {
        true
    }

    fn unit(_alloc: Global, value: i64) -> Result<SumCell, Memory> {
        Ok(SumCell::of(value))
    }

    fn add(cell: &mut SumCell, value: i64) -> Result<(), Memory> {
        cell.add(value);
        Ok(())
    }

    fn add_run<R: Run<Value = i64>>(cell: &mut SumCell, run: &R) -> Result<(), Memory> {
        cell.add_run(run);
        Ok(())
    }

    fn copy(_alloc: Global, cell: &SumCell) -> Result<SumCell, Memory> {
        Ok(cell.copy())
    }

    fn merge(into: &mut SumCell, from: &SumCell) -> Result<(), Memory> {
        into.merge(from);
        Ok(())
    }

    fn is_over(cell: &SumCell) -> bool {
        cell.is_over()
    }
}

impl FixedCombiner for Sum {
    ghost is_fixed = { refl };
}

impl Single for Sum {
    ghost number_of = { sum_number };

    ghost folded = { sum_folded };

    ghost is_fold = { sum_is_fold limit };

    fn number(cell: &SumCell) -> i128 {
        cell.number()
    }
}
