ghost use Rattle.std.specs.Prelude.{◌≡◌, ◌≤◌, ◌+◌, ◌++◌, ℤ, List, Option, length, map, OnOk, OnErr, vec_len, vec_capacity};
ghost use Rattle.mr_defs.specs.Folded.{limit};
ghost use Rattle.mr_combine.specs.Zipped.{zip_longest};
ghost use Rattle.mr_combine.specs.Sums.{Summed, sum_unit, sum_merged};

use crate::sum::SumCell;
use mr_base::Memory;

/// What is added to the sum of a coordinate: a number, or another sum.
pub trait Summand {
    // Its own sum.
    ghost sum_of: { Self → Option Summed };

    /// Its own sum.
    fn cell(&self) -> SumCell
        ensures { result ≡ sum_of self.now };

    /// Adds it to a sum.
    fn add_to(&self, cell: &mut SumCell)
        ensures { cell.new ≡ sum_merged limit cell.old (sum_of self.now) };
}

impl Summand for i32 {
    ghost sum_of = { sum_unit limit };

    fn cell(&self) -> SumCell {
        SumCell::of(*self as i64)
    }

    fn add_to(&self, cell: &mut SumCell) {
        cell.add(*self as i64);
    }
}

impl Summand for SumCell {
    ghost sum_of = { λ c. c };

    fn cell(&self) -> SumCell {
        self.copy()
    }

    fn add_to(&self, cell: &mut SumCell) {
        cell.merge(self);
    }
}

/// Adds to the sum of each coordinate; where there is none yet, the sum begins. After `Memory` the sums are unchanged.
pub fn add_all<S: Summand>(sums: &mut Vec<SumCell>, others: &[S]) -> Result<(), Memory>
    ensures ok { OnOk result (sums.new.items ≡ zip_longest (sum_merged limit) sums.old.items (map S.sum_of others.now)) }
    ensures err { OnErr result (sums.new.items ≡ sums.old.items) }
{
    let there = sums.len().min(others.len());
    let (first, rest) = others.split_at(there);
    begin_rest(sums, rest)?;
    add_first(sums, first);
    Ok(())
}

/// Adds to the sums of the first coordinates.
fn add_first<S: Summand>(sums: &mut [SumCell], others: &[S])
    requires { length others.now ≤ length sums.old }
    ensures { sums.new ≡ zip_longest (sum_merged limit) sums.old (map S.sum_of others.now) }
{
    for at in 0..others.len() {
        others[at].add_to(&mut sums[at]);
    }
}

/// Begins the sums of further coordinates.
fn begin_rest<S: Summand>(sums: &mut Vec<SumCell>, others: &[S]) -> Result<(), Memory>
    ensures ok { OnOk result (sums.new.items ≡ sums.old.items ++ map S.sum_of others.now) }
    ensures err { OnErr result (sums.new.items ≡ sums.old.items) }
{
    sums.reserve(others.len())?;
    push_all(sums, others);
    Ok(())
}

/// Pushes sums into room that is there.
fn push_all<S: Summand>(sums: &mut Vec<SumCell>, others: &[S])
    requires { vec_len sums.old + length others.now ≤ vec_capacity sums.old }
    ensures { sums.new.items ≡ sums.old.items ++ map S.sum_of others.now }
{
    for other in others {
        sums.push_reserved(other.cell());
    }
}
