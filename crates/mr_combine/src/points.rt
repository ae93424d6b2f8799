ghost use Rattle.std.specs.Prelude.{◌≡◌, false, ℤ, List, IfOk, map};
ghost use Rattle.std.specs.List.{list_any};
ghost use Rattle.std.specs.Option.{is_none};
ghost use Rattle.mr_defs.specs.Folded.{vecsum_folded};
ghost use Rattle.mr_combine.specs.Points.{vecsum_unit, vecsum_merged, vecsum_over, vecsum_answer, vecsum_commutative, vecsum_stays_over};
ghost use Rattle.mr_combine.specs.Points.{vecsum_is_fold};

use crate::combiner::{Combiner, Reducer};
use crate::coordinates::add_all;
use crate::count::CountCell;
use crate::single::Plain;
use crate::sum::SumCell;
use mr_base::{Answer, Emitted, Few, Memory};
use std::alloc::Global;
use std::marker::Model;

/// A list of numbers, the coordinates of a point.
#[derive(Debug, Drop)]
pub struct Point {
    coordinates: Vec<i32>,
}

impl Model for Point {
    ghost use Rattle.std.specs.Prelude.{ℤ, List};

    ghost Value = { List ℤ };

    ghost view = { λ p. p.coordinates.items };
}

impl Point {
    /// The point that a row of a grid is.
    pub fn of(alloc: Global, row: &[i32]) -> Result<Point, Memory>
        ensures { IfOk result (λ point. point ≡ row.now) }
    {
        let coordinates = Vec::from_slice(alloc, row)?;
        Ok(Point { coordinates })
    }
}

/// Every point.
impl Emitted for Point {
    ghost allowed = { λ _. Unit {0} };
}

/// The number of points, and of each coordinate the sum beside the sum of the magnitudes; each is seen as None where it passed
/// 9223372036854775807.
#[derive(Debug, Drop)]
pub struct VecSumCell {
    points: CountCell,
    sums: Vec<SumCell>,
}

impl Model for VecSumCell {
    ghost use Rattle.mr_combine.specs.Points.{PointsSeen};

    ghost Value = { PointsSeen };

    ghost view = { λ c. (c.points, c.sums.items) };
}

/// Counts the points of a key and adds each coordinate, where a shorter point ends in zeros; it answers the number, then the sums. Over
/// where there are more than 9223372036854775807 points, or where the magnitudes of a coordinate add up past that number.
pub struct VecSum;

impl Combiner for VecSum {
    type Value = Point;

    type Cell = VecSumCell;

    ghost unit_of = { vecsum_unit };

    ghost merged = { vecsum_merged };

    ghost over = { vecsum_over };

    ghost fixed = { false };

    ghost laws = { vecsum_commutative };

    ghost stays_over = { vecsum_stays_over };

    fn is_fixed() -> bool {
        false
    }

    fn unit(alloc: Global, value: Point) -> Result<VecSumCell, Memory> {
        let mut sums = Vec::new(alloc);
        add_all(&mut sums, &value.coordinates)?;
        Ok(VecSumCell {
            points: CountCell::one(),
            sums,
        })
    }

    fn add(cell: &mut VecSumCell, value: Point) -> Result<(), Memory> {
        add_all(&mut cell.sums, &value.coordinates)?;
        cell.points.merge(&CountCell::one());
        Ok(())
    }

    fn copy(alloc: Global, cell: &VecSumCell) -> Result<VecSumCell, Memory> {
        let mut sums = Vec::new(alloc);
        add_all(&mut sums, &cell.sums)?;
        Ok(VecSumCell {
            points: cell.points.copy(),
            sums,
        })
    }

    fn merge(into: &mut VecSumCell, from: &VecSumCell) -> Result<(), Memory> {
        add_all(&mut into.sums, &from.sums)?;
        into.points.merge(&from.points);
        Ok(())
    }

    fn is_over(cell: &VecSumCell) -> bool {
        cell.points.is_over() || any_over(&cell.sums)
    }
}

impl Reducer<VecSum> for Plain {
    ghost answer = { vecsum_answer };

    ghost folded = { vecsum_folded };

    ghost is_fold = { vecsum_is_fold };

    fn reduce(alloc: Global, cell: VecSumCell) -> Result<Answer, Memory> {
        let mut numbers = Few::with_room(alloc, 1)?;
        numbers.push(cell.points.number());
        for sum in &cell.sums {
            numbers.room()?;
            numbers.push(sum.number());
        }
        Ok(Answer::many(numbers))
    }
}

/// Whether one of the sums is over.
fn any_over(sums: &[SumCell]) -> bool
    ensures { result ≡ list_any is_none sums.now }
{
    sums.iter().any(|sum| sum.is_over())
}
