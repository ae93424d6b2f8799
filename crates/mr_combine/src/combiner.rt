ghost use Rattle.std.specs.Prelude.{◌≡◌, ℕ, ℤ, List, Bool, true, false, Option, IfOk, OnOk, OnErr, IsOk, IsTrue, [], take};
ghost use Rattle.mr_defs.specs.Emission.{Answer};
ghost use Rattle.mr_combine.specs.Fold.{IsFoldOf};
ghost use Rattle.mr_combine.specs.Runs.{added};
ghost use Rattle.mr_defs.specs.Commutative.{IsCommutative};

use crate::run::Run;
use mr_base::{Answer, Emitted, Memory};
use std::alloc::Global;

/// How the values of a key become one cell, value by value and cell by cell.
///
/// After `Memory` the cell that a call was to change is unchanged.
pub trait Combiner {
    /// What is emitted with a key.
    type Value: Emitted;

    /// What the values of a key have come to.
    type Cell: Drop;

    // The cell of a value.
    ghost unit_of: { Self.Value → Self.Cell };

    // The cell of the values of both.
    ghost merged: { Self.Cell → Self.Cell → Self.Cell };

    // Whether the values passed a limit.
    ghost over: { Self.Cell → Bool };

    // Whether no call takes memory.
    ghost fixed: { Bool };

    /// Whether no call takes memory.
    fn is_fixed() -> bool
        ensures { result ≡ fixed };

    /// The cell of one value.
    fn unit(alloc: Global, value: Self::Value) -> Result<Self::Cell, Memory>
        requires { Self.Value.allowed value }
        ensures ok { IfOk result (λ cell. cell ≡ unit_of value) }
        ensures no_memory { IsTrue fixed → IsOk result };

    /// Merges the cell of one value more.
    fn add(cell: &mut Self::Cell, value: Self::Value) -> Result<(), Memory>
        requires { Self.Value.allowed value }
        ensures ok { OnOk result (cell.new ≡ merged cell.old (unit_of value)) }
        ensures err { OnErr result (cell.new ≡ cell.old) }
        ensures no_memory { IsTrue fixed → IsOk result };

    /// Merges the cells of the values of a run, one after the other. After `Memory` those of a front of the run were merged.
    fn add_run<R: Run<Value = Self::Value>>(cell: &mut Self::Cell, run: &R) -> Result<(), Memory>
        ensures ok { OnOk result (cell.new ≡ added unit_of merged cell.old (R.values run.now)) }
        ensures err { OnErr result ((n : ℕ) × (cell.new ≡ added unit_of merged cell.old (take n (R.values run.now)))) }
        ensures no_memory { IsTrue fixed → IsOk result }
    {
        for i in 0..run.len() {
            Self::add(cell, run.value(i))?;
        }
        Ok(())
    }

    /// A cell that is seen as the same.
    fn copy(alloc: Global, cell: &Self::Cell) -> Result<Self::Cell, Memory>
        ensures ok { IfOk result (λ same. same ≡ cell.now) }
        ensures no_memory { IsTrue fixed → IsOk result };

    /// Merges a cell into another.
    fn merge(into: &mut Self::Cell, from: &Self::Cell) -> Result<(), Memory>
        ensures ok { OnOk result (into.new ≡ merged into.old from.now) }
        ensures err { OnErr result (into.new ≡ into.old) }
        ensures no_memory { IsTrue fixed → IsOk result };

    /// Whether the values passed a limit of the combiner. A cell that is over stays over.
    fn is_over(cell: &Self::Cell) -> bool
        ensures { result ≡ over cell.now };

    ghost laws: { IsCommutative merged };

    ghost stays_over: { (a b : Self.Cell) → over a ≡ true → over (merged a b) ≡ true };
}

/// A combiner whose calls take no memory.
pub trait FixedCombiner: Combiner {
    ghost is_fixed: { Self.fixed ≡ true };
}

/// What the cell of a key answers.
pub trait Reducer<C: Combiner> {
    // What a cell that is not over answers.
    ghost answer: { C.Cell → Answer };

    // What the values of a key fold to where there are values, or None where they are over.
    ghost folded: { List C.Value → Option Answer };

    /// The answer of a cell. Of a cell that is over its numbers mean nothing. A fixed combiner's takes no memory.
    fn reduce(alloc: Global, cell: C::Cell) -> Result<Answer, Memory>
        ensures answer { IfOk result (λ numbers. C.over cell ≡ false → numbers ≡ answer cell) }
        ensures no_memory { IsTrue C.fixed → IsOk result };

    ghost is_fold: { IsFoldOf C.unit_of C.merged C.over answer folded };
}
