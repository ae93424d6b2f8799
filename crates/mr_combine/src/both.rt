ghost use Rattle.std.specs.Prelude.{◌≡◌, true, refl, [], ◌∷◌};
ghost use Rattle.mr_defs.specs.Folded.{both_folded};
ghost use Rattle.mr_combine.specs.Paired.{side_by_side, either_over, side_commutative, side_stays, both_is_fold};

use crate::combiner::{Combiner, FixedCombiner, Reducer};
use crate::single::{Plain, Single};
use mr_base::{Answer, Memory};
use std::alloc::Global;
use std::marker::PhantomData;

/// Two combiners of the same values: a cell of each. Over where either is over; it answers the number of the first, then that of the
/// second.
pub struct Both<A, B> {
    of: PhantomData<(A, B)>,
}

impl<A: Single, B: Single> Combiner for Both<A, B> {
    type Value = i64;

    type Cell = (A::Cell, B::Cell);

    ghost unit_of = { λ v. (A.unit_of v, B.unit_of v) };

    ghost merged = { side_by_side A.merged B.merged };

    ghost over = { either_over A.over B.over };

    ghost fixed = { true };

    ghost laws = { side_commutative A.laws B.laws };

    ghost stays_over = { side_stays A.merged B.merged A.over B.over A.stays_over B.stays_over };

    fn is_fixed() -> bool {
        true
    }

    fn unit(alloc: Global, value: i64) -> Result<(A::Cell, B::Cell), Memory> {
        let first = A::unit(alloc, value)?;
        let second = B::unit(alloc, value)?;
        Ok((first, second))
    }

    fn add(cell: &mut (A::Cell, B::Cell), value: i64) -> Result<(), Memory> {
        A::add(&mut cell.0, value)?;
        B::add(&mut cell.1, value)
    }

    fn copy(alloc: Global, cell: &(A::Cell, B::Cell)) -> Result<(A::Cell, B::Cell), Memory> {
        let first = A::copy(alloc, &cell.0)?;
        let second = B::copy(alloc, &cell.1)?;
        Ok((first, second))
    }

    fn merge(into: &mut (A::Cell, B::Cell), from: &(A::Cell, B::Cell)) -> Result<(), Memory> {
        A::merge(&mut into.0, &from.0)?;
        B::merge(&mut into.1, &from.1)
    }

    fn is_over(cell: &(A::Cell, B::Cell)) -> bool {
        A::is_over(&cell.0) || B::is_over(&cell.1)
    }
}

impl<A: Single, B: Single> FixedCombiner for Both<A, B> {
    ghost is_fixed = { refl };
}

impl<A: Single, B: Single> Reducer<Both<A, B>> for Plain {
    ghost answer = { λ c. A.number_of c.0 ∷ B.number_of c.1 ∷ [] };

    ghost folded = { both_folded A.folded B.folded };

    ghost is_fold = { both_is_fold A.unit_of B.unit_of A.merged B.merged A.over B.over A.number_of B.number_of A.folded B.folded A.is_fold
        B.is_fold };

    fn reduce(_alloc: Global, cell: (A::Cell, B::Cell)) -> Result<Answer, Memory> {
        Ok(Answer::two(A::number(&cell.0), B::number(&cell.1)))
    }
}
