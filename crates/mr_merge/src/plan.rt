ghost use Rattle.std.specs.Prelude.{◌≡◌, ◌≤◌, true, false, length, All, IfOk};
ghost use Rattle.std.specs.List.{AllWithin};
ghost use Rattle.mr_merge.specs.Lists.{lent};
ghost use Rattle.mr_merge.specs.Plans.{IsPlan};
ghost use Rattle.mr_merge.specs.Rising.{Rises, begins_lower, rank};
ghost use Rattle.mr_merge.specs.Runs.{AreRuns};

use crate::lesser::begins_lower;
use mr_base::{Key, Memory};
use std::alloc::Global;
use std::collections::VecDeque;

// The place at which rows go among what is left of other lists, which stands in order: behind those that begin with a lesser key.
fn place_of<K: Key, A>(runs: &VecDeque<(usize, &[(K, A)])>, rows: &[(K, A)]) -> usize
    requires { Rises (λ a b. begins_lower (rank K.cmp) a.1.now b.1.now) runs.now.items }
    ensures inside { result ≤ length runs.now.items }
    ensures behind { AllWithin (λ a. begins_lower (rank K.cmp) a.1.now rows.now ≡ true) runs.now.items 0 result }
    ensures before { AllWithin (λ a. begins_lower (rank K.cmp) a.1.now rows.now ≡ false) runs.now.items result (length runs.now.items) }
{
    let is_lower = |other: &(usize, &[(K, A)])| -> bool
        ensures { result ≡ begins_lower (rank K.cmp) other.now.1.now rows.entry.now }
    { begins_lower(other.1, rows) };
    runs.partition_point(is_lower)
}

// The lists beside their numbers, in the order of their first rows.
fn runs_of<'a, K: Key, A>(
    alloc: Global,
    lists: &[&'a [(K, A)]],
) -> Result<VecDeque<(usize, &'a [(K, A)])>, Memory>
    requires { All (λ l. Rises (rank K.cmp) l.now) lists.now }
    ensures { IfOk result (λ runs. AreRuns (rank K.cmp) (lent lists.now) runs.items) }
{
    let mut runs: VecDeque<(usize, &'a [(K, A)])> = VecDeque::with_capacity(alloc, lists.len())?;
    for number in 0..lists.len() {
        let list = lists[number];
        let place = place_of(&runs, list);
        runs.insert(place, (number, list))?;
    }
    Ok(runs)
}

// How many rows there are in all; the highest number where there are more.
fn count_rows<T>(lists: &[&[T]]) -> usize {
    let mut count: usize = 0;
    for list in lists {
        count = count.saturating_add(list.len());
    }
    count
}

/// From which list row after row is taken, so that the rows don't fall. What is left of the lists stands in the order of its first rows:
/// the first gives its row, and goes back to its place among the others.
pub(crate) fn plan_of<K: Key, A>(alloc: Global, lists: &[&[(K, A)]]) -> Result<Vec<usize>, Memory>
    requires { All (λ l. Rises (rank K.cmp) l.now) lists.now }
    ensures { IfOk result (λ plan. IsPlan (rank K.cmp) (lent lists.now) plan.items) }
{
    let mut runs = runs_of(alloc, lists)?;
    let mut plan = Vec::with_capacity(alloc, count_rows(lists))?;
    while let Some((number, rows)) = runs.pop_front() {
        if let Some((_, rest)) = rows.split_first() {
            plan.push(number)?;
            let place = place_of(&runs, rest);
            runs.insert(place, (number, rest))?;
        }
    }
    Ok(plan)
}
