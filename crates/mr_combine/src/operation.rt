ghost use Rattle.std.specs.Prelude.{◌≡◌, ℤ, List, Option, true, refl, bit_and, bit_or, bit_xor};
ghost use Rattle.std.specs.Int.{int_min, int_max};
ghost use Rattle.mr_defs.specs.Commutative.{IsCommutative};
ghost use Rattle.mr_defs.specs.Emission.{Answer};
ghost use Rattle.mr_combine.specs.Joining.{Joins, never, never_stays, joining_is_fold, numbers_join, bits_join, both_there};
ghost use Rattle.mr_combine.specs.Joining.{there_commutative, there_join};
ghost use Rattle.mr_defs.specs.Folded.{min_folded, max_folded, one_folded, and_folded, or_folded, xor_folded};
ghost use Rattle.mr_defs.proofs.FoldLaws.{int_min_commutative, int_max_commutative, and_commutative, or_commutative, xor_commutative};

use crate::combiner::{Combiner, FixedCombiner};
use crate::scalar::Scalar;
use crate::single::Single;
use mr_base::Memory;
use std::alloc::Global;
use std::marker::PhantomData;

/// An operation in which neither order nor grouping counts. `Joined` makes a combiner of each, whose cell is seen as what is kept, and is
/// never over.
pub trait Operation {
    /// What a cell keeps.
    type Scalar: Scalar;

    // What both come to.
    ghost joined: { Self.Scalar → Self.Scalar → Self.Scalar };

    // What the values of a key fold to where there are values.
    ghost folded: { List ℤ → Option Answer };

    /// Joins two.
    fn join(first: Self::Scalar, second: Self::Scalar) -> Self::Scalar
        ensures { result ≡ joined first second };

    ghost laws: { IsCommutative joined };

    ghost joins: { Joins Self.Scalar.scalar_of Self.Scalar.number_of joined folded };
}

/// Combines by an operation, and is never over.
pub struct Joined<O> {
    operation: PhantomData<O>,
}

impl<O: Operation> Combiner for Joined<O> {
    type Value = i64;

    type Cell = O::Scalar;

    ghost unit_of = { O.Scalar.scalar_of };

    ghost merged = { O.joined };

    ghost over = { never };

    ghost fixed = { true };

    ghost laws = { O.laws };

    ghost stays_over = { never_stays O.joined };

    fn is_fixed() -> bool {
        true
    }

    fn unit(_alloc: Global, value: i64) -> Result<O::Scalar, Memory> {
        Ok(O::Scalar::of(value))
    }

    fn add(cell: &mut O::Scalar, value: i64) -> Result<(), Memory> {
        *cell = O::join(*cell, O::Scalar::of(value));
        Ok(())
    }

    fn copy(_alloc: Global, cell: &O::Scalar) -> Result<O::Scalar, Memory> {
        Ok(*cell)
    }

    fn merge(into: &mut O::Scalar, from: &O::Scalar) -> Result<(), Memory> {
        *into = O::join(*into, *from);
        Ok(())
    }

    fn is_over(_cell: &O::Scalar) -> bool {
        false
    }
}

impl<O: Operation> FixedCombiner for Joined<O> {
    ghost is_fixed = { refl };
}

impl<O: Operation> Single for Joined<O> {
    ghost number_of = { O.Scalar.number_of };

    ghost folded = { O.folded };

    ghost is_fold = { joining_is_fold O.Scalar.scalar_of O.Scalar.number_of O.joined O.laws O.folded O.joins };

    fn number(cell: &O::Scalar) -> i128 {
        cell.number() as i128
    }
}

/// Keeps the least value, and answers it.
pub type Min = Joined<Least>;

/// The lesser of two values.
pub struct Least;

impl Operation for Least {
    type Scalar = i64;

    ghost joined = { int_min };

    ghost folded = { min_folded };

    ghost laws = { int_min_commutative };

    ghost joins = { numbers_join int_min };

    fn join(first: i64, second: i64) -> i64 {
        first.min(second)
    }
}

/// Keeps the greatest value, and answers it.
pub type Max = Joined<Greatest>;

/// The greater of two values.
pub struct Greatest;

impl Operation for Greatest {
    type Scalar = i64;

    ghost joined = { int_max };

    ghost folded = { max_folded };

    ghost laws = { int_max_commutative };

    ghost joins = { numbers_join int_max };

    fn join(first: i64, second: i64) -> i64 {
        first.max(second)
    }
}

/// Keeps that there is a value, and answers 1.
pub type One = Joined<Presence>;

/// That there is a value.
pub struct Presence;

impl Operation for Presence {
    type Scalar = ();

    ghost joined = { both_there };

    ghost folded = { one_folded };

    ghost laws = { there_commutative };

    ghost joins = { there_join };

    fn join(_first: (), _second: ()) {}
}

/// Keeps the bits in two's complement that all values have, and answers the number that has these.
pub type And = Joined<CommonBits>;

/// The bits that both have.
pub struct CommonBits;

impl Operation for CommonBits {
    type Scalar = u64;

    ghost joined = { bit_and };

    ghost folded = { and_folded };

    ghost laws = { and_commutative };

    ghost joins = { bits_join bit_and };

    fn join(first: u64, second: u64) -> u64 {
        first & second
    }
}

/// Keeps the bits in two's complement that some value has, and answers the number that has these.
pub type Or = Joined<AnyBits>;

/// The bits that one has, or both.
pub struct AnyBits;

impl Operation for AnyBits {
    type Scalar = u64;

    ghost joined = { bit_or };

    ghost folded = { or_folded };

    ghost laws = { or_commutative };

    ghost joins = { bits_join bit_or };

    fn join(first: u64, second: u64) -> u64 {
        first | second
    }
}

/// Keeps the bits in two's complement that an odd number of values has, and answers the number that has these.
pub type Xor = Joined<OddBits>;

/// The bits that one of both has.
pub struct OddBits;

impl Operation for OddBits {
    type Scalar = u64;

    ghost joined = { bit_xor };

    ghost folded = { xor_folded };

    ghost laws = { xor_commutative };

    ghost joins = { bits_join bit_xor };

    fn join(first: u64, second: u64) -> u64 {
        first ^ second
    }
}
