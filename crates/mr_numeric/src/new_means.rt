ghost use Rattle.std.specs.Prelude.{◌≡◌, ◌≤ℤ◌, ℕ, pos, map, drop, get_or, All, IfOk};
ghost use Rattle.mr_items.specs.KMeans as items;
ghost use Rattle.mr_items.specs.Texts as texts;
ghost use Rattle.mr_numeric.specs.Sums.{AreMeans, HasPoints, IsCluster};

use crate::means::{Mean, Means};
use crate::sums::answer_at;
use mr_base::{Answer, Memory, NumKey, Rows};
use std::alloc::Global;

/// The means of the next round, from the rows of a round: of each cluster the sums of its points divided by their number and rounded down,
/// or its old mean where it has no points. They fit a grid as the old ones do where the rows are of its points.
pub fn next_means(alloc: Global, means: &Means, rows: &Rows<NumKey>) -> Result<Means, Memory>
    requires { All HasPoints rows.now }
    ensures means { IfOk result (λ next. next ≡ items.next_means means.now rows.now) }
    ensures fit { (columns : ℕ) → AreMeans columns means.now → All (IsCluster columns) rows.now → IfOk result (AreMeans columns) }
{
    let mut next = Vec::with_capacity(alloc, means.len())?;
    for cluster in 0..means.len() {
        next.push(next_mean(alloc, means.mean(cluster), rows, cluster as u64)?)?;
    }
    Ok(Means::of(next))
}

/// The mean of the points of a cluster, or the old mean where it has none.
fn next_mean(alloc: Global, old: &Mean, rows: &Rows<NumKey>, cluster: u64) -> Result<Mean, Memory>
    requires { All HasPoints rows.now }
    ensures { IfOk result (λ mean. mean ≡ items.mean_of old.now (texts.answer_at rows.now cluster)) }
{
    match answer_at(rows, cluster) {
        Some(answer) => Mean::of(alloc, quotients(alloc, answer)?),
        None => Mean::of(alloc, Vec::from_slice(alloc, old.coordinates())?),
    }
}

/// Each sum behind the number of points divided by that number, rounded down.
fn quotients(alloc: Global, answer: &Answer) -> Result<Vec<i128>, Memory>
    requires { pos 1 ≤ℤ get_or answer.now 0 (pos 0) }
    ensures { IfOk result (λ each. each.items ≡ map (λ sum. items.floor_div sum (get_or answer.now 0 (pos 0))) (drop 1 answer.now)) }
{
    let count = answer.number(0);
    let mut each = Vec::with_capacity(alloc, answer.len() - 1)?;
    for i in 1..answer.len() {
        each.push(quotient(answer.number(i), count))?;
    }
    Ok(each)
}

/// A sum divided by a number of points, rounded down.
fn quotient(sum: i128, count: i128) -> i128
    requires { pos 1 ≤ℤ count }
    ensures { result ≡ items.floor_div sum count }
{
    sum.div_euclid(count)
}
