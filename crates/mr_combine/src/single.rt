ghost use Rattle.std.specs.Prelude.{◌≡◌, ℤ, List, [], ◌∷◌, Option};
ghost use Rattle.mr_defs.specs.Emission.{Answer};
ghost use Rattle.mr_combine.specs.Fold.{IsFoldOf};

use crate::combiner::{Combiner, FixedCombiner, Reducer};
use mr_base::{Answer, Memory};
use std::alloc::Global;

/// A combiner of numbers whose calls take no memory and whose cells answer one number.
pub trait Single: FixedCombiner<Value = i64> {
    // The number that a cell answers.
    ghost number_of: { Self.Cell → ℤ };

    // What the values of a key fold to where there are values, or None where they are over.
    ghost folded: { List ℤ → Option Answer };

    /// The number that a cell answers, or 0 where it is over.
    fn number(cell: &Self::Cell) -> i128
        ensures { result ≡ number_of cell.now };

    ghost is_fold: { IsFoldOf Self.unit_of Self.merged Self.over (λ c. number_of c ∷ []) folded };
}

/// The reducer of every combiner but the buffer: it answers the numbers of the cell.
pub struct Plain;

impl<C: Single> Reducer<C> for Plain {
    ghost answer = { λ c. C.number_of c ∷ [] };

    ghost folded = { C.folded };

    ghost is_fold = { C.Single.is_fold };

    fn reduce(_alloc: Global, cell: C::Cell) -> Result<Answer, Memory> {
        Ok(Answer::one(C::number(&cell)))
    }
}
