ghost use Rattle.std.specs.Prelude.{◌≡◌, ◌≤◌, ◌<◌, ◌++◌, [], List, ℕ, All, IfOk, OnOk, length, map, flat_map, option_and_then};
ghost use Rattle.std.specs.FinMap.{find};
ghost use Rattle.std.specs.List.{IsDistinct};
ghost use Rattle.std.specs.List.Sorted.{IsPermutation, IsSortedByKey, IsStrictlySortedBy};
ghost use Rattle.std.specs.Ordering.{eq_by_cmp, nat_cmp};
ghost use Rattle.mr_defs.specs.Commutative.{joined_by};
ghost use Rattle.mr_defs.specs.Emission.{Emission};
ghost use Rattle.mr_defs.specs.Partitions.{concatenated};
ghost use Rattle.mr_combine.specs.Fold.{outcome};
ghost use Rattle.mr_base.specs.Noting.{noted_of};
ghost use Rattle.mr_base.specs.Tasks.{AreAll, AreUnused};
ghost use Rattle.mr_phase.specs.Partition.{HaveReduced, anywhere, itself};
ghost use Rattle.mr_phase.specs.Spread.{IsSpreadOf};
ghost use Rattle.mr_phase.specs.Works.{IsFresh, AreFresh, IsDone, AreDone};

use crate::hands::Hand;
use crate::map::{Work, dismiss, equip};
use crate::mapped::Mapped;
use crate::partition::{Partition, reduce_partition};
use crate::together::{Reduced, together};
use mr_base::{Few, Memory, TaskQueues};
use mr_combine::{Combiner, Reducer};
use mr_container::Parted;
use std::alloc::Global;
use std::thread;
use std::thread::Threads;

// Takes partitions until there is none left or no memory. The places for a partition are there before it is taken.
fn reduce_through<Q: TaskQueues, L: Parted, R: Reducer<L::Fold>>(
    alloc: Global,
    queues: &Q,
    mapped: &Mapped<L>,
    parts: u32,
    work: &mut Work<Q::Pass, Few<Partition<L::Key>>>,
)
    requires total { Q.total queues.now ≡ parts }
    requires parts { (1 ≤ parts) × (parts ≤ 64) }
    requires fresh { IsFresh (Q.is_of queues.now) Q.number Q.given
        (HaveReduced L.Key.cmp (λ k. joined_by L.Fold.merged (λ h. L.cell h.local k) mapped.now) (L.part_of parts) L.Fold.over R.answer)
        work.old }
    ensures { IsDone (Q.is_of queues.now) Q.number Q.given Q.ended anywhere
        (HaveReduced L.Key.cmp (λ k. joined_by L.Fold.merged (λ h. L.cell h.local k) mapped.now) (L.part_of parts) L.Fold.over R.answer)
        itself work.old work.new }
{
    loop {
        if work.tasks.room().is_err() {
            work.starved = true;
            return;
        }
        if work.local.room().is_err() {
            work.starved = true;
            return;
        }
        let Some(part) = queues.take(&mut work.pass) else {
            return;
        };
        work.tasks.push(part);
        let Ok(partition) = reduce_partition::<L, R>(alloc, mapped, part, parts) else {
            work.starved = true;
            return;
        };
        work.local.push(partition);
    }
}

// Runs the workers, each in a thread of its own where one can be made.
fn reduce_all<
    T: Threads + Sync,
    Q: TaskQueues + Sync,
    L: Parted + Sync,
    R: Reducer<L::Fold> + Send,
>(
    rt: &T,
    alloc: Global,
    queues: &Q,
    mapped: &Mapped<L>,
    parts: u32,
    works: &mut Few<Work<Q::Pass, Few<Partition<L::Key>>>>,
)
where
    L::Key: Send,
    L::Value: Send,
    L::Fold: Send,
    <L::Fold as Combiner>::Cell: Send,
    requires some { 0 < length works.old.items }
    requires total { Q.total queues.now ≡ parts }
    requires parts { (1 ≤ parts) × (parts ≤ 64) }
    requires fresh { AreFresh (Q.is_of queues.now) Q.number Q.given
        (HaveReduced L.Key.cmp (λ k. joined_by L.Fold.merged (λ h. L.cell h.local k) mapped.now) (L.part_of parts) L.Fold.over R.answer)
        works.old.items }
    ensures len { length works.new.items ≡ length works.old.items }
    ensures done { AreDone (Q.is_of queues.now) Q.number Q.given Q.ended anywhere
        (HaveReduced L.Key.cmp (λ k. joined_by L.Fold.merged (λ h. L.cell h.local k) mapped.now) (L.part_of parts) L.Fold.over R.answer)
        itself works.old.items works.new.items }
{
    let count = works.len();
    let reduce_one = |_: usize, work: &mut Work<Q::Pass, Few<Partition<L::Key>>>|
        requires { (Q.total queues.now ≡ parts) × ((1 ≤ parts) × (parts ≤ 64))
            × IsFresh (Q.is_of queues.now) Q.number Q.given
            (HaveReduced L.Key.cmp (λ k. joined_by L.Fold.merged (λ h. L.cell h.local k) mapped.now)
            (L.part_of parts) L.Fold.over R.answer) work.old }
        ensures { IsDone (Q.is_of queues.entry.now) Q.number Q.given Q.ended anywhere
            (HaveReduced L.Key.cmp (λ k. joined_by L.Fold.merged (λ h. L.cell h.local k) mapped.entry.now)
            (L.part_of parts) L.Fold.over R.answer) itself work.old work.new }
    { reduce_through::<Q, L, R>(alloc, queues, mapped, parts, work) };
    thread::for_each_mut(rt, works.as_mut_slice(), count, &reduce_one);
}

// As many empty lists.
fn empty_lists<X: Drop>(alloc: Global, count: usize) -> Result<Few<Few<X>>, Memory>
    requires { count ≤ 32 }
    ensures { IfOk result (λ lists. (length lists.items ≡ count) × All (λ list. list.items ≡ []) lists.items) }
{
    let mut lists = Few::with_room(alloc, count as u32)?;
    for _ in 0..count {
        lists.push(Few::with_room(alloc, 0)?);
    }
    Ok(lists)
}

// Puts the partitions of one list behind the others, in some order.
fn pour<K: Drop>(mut from: Few<Partition<K>>, all: &mut Vec<Partition<K>>) -> Result<(), Memory>
    ensures { OnOk result (IsPermutation (all.old.items ++ from.items) all.new.items) }
{
    while let Some(partition) = from.pop() {
        all.push(partition)?;
    }
    Ok(())
}

// The partitions of all workers, by their numbers.
fn in_order<K: Drop>(
    alloc: Global,
    mut shares: Few<Hand<Few<Partition<K>>>>,
) -> Result<Vec<Partition<K>>, Memory>
    ensures all { IfOk result (λ all. IsPermutation (flat_map (λ h. h.local.items) shares.items) all.items) }
    ensures sorted { IfOk result (λ all. IsSortedByKey (λ p. p.part) nat_cmp all.items) }
{
    let mut all = Vec::new(alloc);
    while let Some(share) = shares.pop() {
        pour(share.local, &mut all)?;
    }
    all.sort_by(|one, other| one.part.cmp(&other.part))?;
    Ok(all)
}

/// Reduces each partition once: workers on threads take the partitions from the queues. Worker `w` has pass `w`, and runs in a thread of
/// its own where one can be made; one worker alone runs on the calling thread.
///
/// There is a list of rows for each partition, in the order of their numbers. The cells of a key are merged over all hands, and a key whose
/// merged cell is not over has a row; the least that is over is noted beside the faults of the hands. Where the hands together stand for
/// what some tasks emit, each task once, the lists together have the rows of that and the faults are its faults, whichever hand has which
/// task.
pub fn reduce_phase<
    T: Threads + Sync,
    Q: TaskQueues + Sync + Drop,
    L: Parted + Sync,
    R: Reducer<L::Fold> + Send,
>(
    rt: &T,
    alloc: Global,
    queues: Q,
    mut passes: Few<Q::Pass>,
    partitions: u32,
    mapped: &Mapped<L>,
) -> Result<Reduced<L::Key>, Memory>
where
    L::Key: Send,
    L::Value: Send,
    L::Fold: Send,
    <L::Fold as Combiner>::Cell: Send,
    requires passes { AreAll (Q.count queues) (Q.is_of queues) Q.number passes.items × AreUnused Q.given Q.ended passes.items }
    requires few { (0 < Q.count queues) × (Q.count queues ≤ 32) }
    requires partitions { (1 ≤ partitions) × (partitions ≤ 64) }
    requires total { Q.total queues ≡ partitions }
    ensures count { IfOk result (λ r. length r.lists.items ≡ partitions) }
    ensures ascend { IfOk result (λ r. All (λ list. IsStrictlySortedBy L.Key.cmp (map (λ row. row.0) list)) r.lists.items) }
    ensures differ { IfOk result (λ r. IsDistinct (eq_by_cmp L.Key.cmp) (map (λ row. row.0) (concatenated r.lists.items))) }
    ensures cells { IfOk result
        (λ r. (k : L.Key) → find L.Key.cmp k (concatenated r.lists.items)
        ≡ option_and_then (outcome L.Fold.over R.answer) (joined_by L.Fold.merged (λ h. L.cell h.local k) mapped.now)) }
    ensures tasks { IfOk result (λ r. (pairs : ℕ → List (Emission L.Key L.Value)) (all : List ℕ)
        → All (λ h. L.stands h.local (flat_map pairs h.tasks.items)) mapped.now
        → IsPermutation all (flat_map (λ h. h.tasks.items) mapped.now)
        → IsSpreadOf L.Key.cmp L.inside R.folded r.lists.items (noted_of r.faults) (flat_map pairs all)) }
{
    let shares = Few::with_room(alloc, passes.len() as u32)?;
    let lists = empty_lists(alloc, passes.len())?;
    let mut works = equip(alloc, &mut passes, lists)?;
    reduce_all::<T, Q, L, R>(rt, alloc, &queues, mapped, partitions, &mut works);
    let (passes, shares) = dismiss(works, passes, shares)?;
    queues.finish(passes);
    let all = in_order(alloc, shares)?;
    let reduced = together::<L, R>(alloc, mapped, partitions, all)?;
    Ok(reduced)
}
