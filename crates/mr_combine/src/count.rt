ghost use Rattle.std.specs.Prelude.{◌≡◌, true, refl};
ghost use Rattle.std.specs.Option.{is_none};
ghost use Rattle.mr_defs.specs.Folded.{count_folded};
ghost use Rattle.mr_combine.specs.Bounded.{within};
ghost use Rattle.mr_combine.specs.Counts.{count_fits, count_unit, count_merged, count_commutative, count_number, count_is_fold};
ghost use Rattle.mr_combine.specs.Counts.{count_stays_over};

use crate::LIMIT;
use crate::combiner::{Combiner, FixedCombiner};
use crate::single::Single;
use mr_base::Memory;
use std::alloc::Global;
use std::marker::Model;

/// The number of values, seen as None where it passed 9223372036854775807.
#[derive(Debug, Drop)]
pub struct CountCell {
    count: u64,
}

impl Model for CountCell {
    ghost use Rattle.std.specs.Prelude.{ℕ, Option};
    ghost use Rattle.mr_combine.specs.Bounded.{within};
    ghost use Rattle.mr_combine.specs.Counts.{count_fits};

    ghost Value = { Option ℕ };

    ghost view = { λ c. within count_fits c.count };
}

impl CountCell {
    /// Of one value.
    pub fn one() -> CountCell
        ensures { result ≡ within count_fits 1 }
    {
        CountCell { count: 1 }
    }

    /// The same number.
    pub fn copy(&self) -> CountCell
        ensures { result ≡ self.now }
    {
        CountCell { count: self.count }
    }

    /// Adds another number.
    pub fn merge(&mut self, from: &CountCell)
        ensures { self.new ≡ count_merged self.old from.now }
    {
        self.count = self.count.saturating_add(from.count);
    }

    /// Whether the number passed the limit.
    pub fn is_over(&self) -> bool
        ensures { result ≡ is_none self.now }
    {
        self.count > LIMIT
    }

    /// The number, or 0 where it is over.
    pub fn number(&self) -> i128
        ensures { result ≡ count_number self.now }
    {
        if self.is_over() {
            0
        } else {
            self.count as i128
        }
    }
}

/// Counts the values of a key, and answers their number. Over where there are more than 9223372036854775807.
pub struct Count;

impl Combiner for Count {
    type Value = i64;

    type Cell = CountCell;

    ghost unit_of = { count_unit };

    ghost merged = { count_merged };

    ghost over = { is_none };

    ghost fixed = { true };

    ghost laws = { count_commutative };

    ghost stays_over = { count_stays_over };

    fn is_fixed() -> bool {
        true
    }

    fn unit(_alloc: Global, _value: i64) -> Result<CountCell, Memory> {
        Ok(CountCell::one())
    }

    fn add(cell: &mut CountCell, _value: i64) -> Result<(), Memory> {
        cell.merge(&CountCell::one());
        Ok(())
    }

    fn copy(_alloc: Global, cell: &CountCell) -> Result<CountCell, Memory> {
        Ok(cell.copy())
    }

    fn merge(into: &mut CountCell, from: &CountCell) -> Result<(), Memory> {
        into.merge(from);
        Ok(())
    }

    fn is_over(cell: &CountCell) -> bool {
        cell.is_over()
    }
}

impl FixedCombiner for Count {
    ghost is_fixed = { refl };
}

impl Single for Count {
    ghost number_of = { count_number };

    ghost folded = { count_folded };

    ghost is_fold = { count_is_fold };

    fn number(cell: &CountCell) -> i128 {
        cell.number()
    }
}
