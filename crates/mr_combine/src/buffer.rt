ghost use Rattle.std.specs.Prelude.{◌≡◌, ◌≤◌, false, length};
ghost use Rattle.std.specs.List.Sorted.{IsSorted};
ghost use Rattle.std.specs.Ordering.{int_cmp};
ghost use Rattle.mr_defs.specs.Folded.{list_folded, distinct_folded, median_folded};
ghost use Rattle.mr_combine.specs.Joining.{never, never_stays};
ghost use Rattle.mr_combine.specs.Ordered.{buffer_unit, buffer_merged, buffer_commutative, list_answer, list_is_fold, distinct_answer};
ghost use Rattle.mr_combine.specs.Ordered.{distinct_is_fold, median_answer, median_is_fold};

use crate::combiner::{Combiner, Reducer};
use mr_base::{Answer, Memory};
use std::alloc::Global;
use std::marker::Model;

/// The values of a key, one or more, seen in ascending order.
#[derive(Debug, Drop)]
pub struct BufferCell {
    values: Vec<i64>,
}

impl Model for BufferCell {
    ghost use Rattle.std.specs.Prelude.{◌≤◌, ℤ, List, length};
    ghost use Rattle.mr_defs.specs.Folded.{in_order};

    ghost Value = { List ℤ };

    ghost view = { λ c. in_order c.values.items };

    ghost invariant = { λ c. 1 ≤ length c.values.items };
}

/// Keeps all values of a key. They are put in order when they are reduced. Never over.
pub struct Buffer;

impl Combiner for Buffer {
    type Value = i64;

    type Cell = BufferCell;

    ghost unit_of = { buffer_unit };

    ghost merged = { buffer_merged };

    ghost over = { never };

    ghost fixed = { false };

    ghost laws = { buffer_commutative };

    ghost stays_over = { never_stays buffer_merged };

    fn is_fixed() -> bool {
        false
    }

    fn unit(alloc: Global, value: i64) -> Result<BufferCell, Memory> {
        let values = Vec::from_slice(alloc, &[value])?;
        Ok(BufferCell { values })
    }

    #[tactic(auto, using(crate::specs::Ordered::left_in_order))]
    fn add(cell: &mut BufferCell, value: i64) -> Result<(), Memory> {
        cell.values.push(value)?;
        Ok(())
    }

    fn copy(alloc: Global, cell: &BufferCell) -> Result<BufferCell, Memory> {
        let values = Vec::from_slice(alloc, &cell.values)?;
        Ok(BufferCell { values })
    }

    #[tactic(auto, using(crate::specs::Ordered::both_in_order))]
    fn merge(into: &mut BufferCell, from: &BufferCell) -> Result<(), Memory> {
        into.values.extend_from_slice(&from.values)?;
        Ok(())
    }

    fn is_over(_cell: &BufferCell) -> bool {
        false
    }
}

/// Answers all values of a buffer, ascending.
pub struct List;

impl Reducer<Buffer> for List {
    ghost answer = { list_answer };

    ghost folded = { list_folded };

    ghost is_fold = { list_is_fold };

    fn reduce(_alloc: Global, cell: BufferCell) -> Result<Answer, Memory> {
        Ok(Answer::listed(sorted(cell)))
    }
}

/// Answers each different value of a buffer once, ascending.
pub struct Distinct;

impl Reducer<Buffer> for Distinct {
    ghost answer = { distinct_answer };

    ghost folded = { distinct_folded };

    ghost is_fold = { distinct_is_fold };

    fn reduce(_alloc: Global, cell: BufferCell) -> Result<Answer, Memory> {
        Ok(Answer::listed(different(cell)))
    }
}

/// Answers the value of a buffer that stands at place `floor((n - 1) / 2)` of its `n` values in ascending order.
pub struct Median;

impl Reducer<Buffer> for Median {
    ghost answer = { median_answer };

    ghost folded = { median_folded };

    ghost is_fold = { median_is_fold };

    fn reduce(_alloc: Global, cell: BufferCell) -> Result<Answer, Memory> {
        let ordered = sorted(cell);
        let middle = (ordered.len() - 1) / 2;
        Ok(Answer::one(ordered[middle] as i128))
    }
}

/// The values of a cell, ascending.
fn sorted(cell: BufferCell) -> Vec<i64>
    ensures values { result.items ≡ cell }
    ensures rises { IsSorted int_cmp result.items }
    ensures one { 1 ≤ length result.items }
{
    let mut values = cell.values;
    values.sort_unstable();
    values
}

/// The different values of a cell, ascending.
fn different(cell: BufferCell) -> Vec<i64>
    ensures { result.items ≡ distinct_answer cell }
{
    let mut values = sorted(cell);
    values.dedup();
    values
}
