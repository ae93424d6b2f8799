ghost use Rattle.std.specs.Prelude.{◌≡◌, ◌≤◌, ◌⊎◌, [], All, IfOk, List, ℕ, false, length, map, flat_map, true};
ghost use Rattle.std.specs.Cmp.{IsTotalOrder};
ghost use Rattle.std.specs.FinMap.{IsAntisymmetric};
ghost use Rattle.std.specs.List.{IsDistinct, range_with_len};
ghost use Rattle.std.specs.List.Sorted.{IsPermutation, IsStrictlySortedBy};
ghost use Rattle.std.specs.Ordering.{eq_by_cmp};
ghost use Rattle.mr_base.specs.Noting.{noted_of};
ghost use Rattle.mr_defs.specs.Emission.{Emission};
ghost use Rattle.mr_defs.specs.Partitions.{concatenated};
ghost use Rattle.mr_defs.specs.Tasks.{most_tasks};
ghost use Rattle.mr_jobs.specs.Reported.{reported};
ghost use Rattle.mr_jobs.specs.RoundOf.{IsRoundOfTasks};
ghost use Rattle.mr_jobs.specs.Shares.{AreShares, IsLawfulRound};
ghost use Rattle.mr_phase.specs.Spread.{IsSpreadOf};
ghost use Rattle.mr_report.specs.Shown.{work_of, workers_of};

use crate::workers::Workers;
use mr_base::{Fault, Few, Key, Memory, Ranges, Rows, Stop};
use mr_capacity::QueueKind;
use mr_combine::{Combiner, Reducer};
use mr_container::{Mapper, Parted};
use mr_jobfile::Job;
use mr_outside::Gate;
use mr_phase::{Hand, Mapped, Reduced, gather, map_phase, reduce_phase};
use mr_queues::AnyQueues;
use mr_report::Share;
use std::alloc::Global;
use std::thread::Threads;

/// What a round gives: its rows in lists, each of which ascends by key, and what each worker did, where a report is asked for. Else there
/// are no shares.
#[derive(Drop)]
pub(crate) struct Round<K> {
    pub(crate) lists: Few<Rows<K>>,
    pub(crate) shares: Few<Share>,
}

// Maps each task once, into the local of the worker that took it. One of several workers may spill, and then has more hands than one; not
// where a report is asked for, which tells of a worker as a whole.
fn map_tasks<
    T: Threads + Sync,
    G: Gate + Sync,
    L: Parted + Send,
    M: Mapper<Key = L::Key, Value = L::Value> + Sync,
>(
    workers: &Workers<T, G>,
    queue: QueueKind,
    mapper: &M,
    locals: Few<L>,
) -> Result<Mapped<L>, Memory>
where
    L::Key: Send,
    L::Value: Send,
    requires few { M.task_count mapper.now ≤ most_tasks }
    requires locals { (length locals.items ≡ workers.now.count) × All (λ local. L.stands local []) locals.items }
    ensures count { (workers.now.reports ≡ true) ⊎ (workers.now.count ≡ 1) → IfOk result (λ hands. length hands ≡ workers.now.count) }
    ensures once { IfOk result (λ hands. IsPermutation (range_with_len 0 (M.task_count mapper.now)) (flat_map (λ h. h.tasks.items) hands)) }
    ensures stands { IfOk result (λ hands. All (λ h. L.stands h.local (flat_map (M.task_emissions mapper.now) h.tasks.items)) hands) }
{
    let ranges = Ranges::even(workers.alloc, mapper.tasks(), workers.count())?;
    let (queues, passes) = AnyQueues::of(workers.alloc, queue, &ranges)?;
    let spills = workers.count() > 1 && !workers.reports();
    map_phase(
        workers.rt,
        workers.alloc,
        queues,
        passes,
        locals,
        mapper,
        workers.gate,
        spills,
    )
}

// Reduces what the locals hold: one worker to one list, and several by partitions, each to a list of its own. The locals are freed.
fn reduce_cells<T: Threads + Sync, G, L: Parted + Send + Sync, R: Reducer<L::Fold> + Send>(
    workers: &Workers<T, G>,
    job: &Job,
    mut mapped: Mapped<L>,
) -> Result<Reduced<L::Key>, Memory>
where
    L::Key: Send,
    L::Value: Send,
    L::Fold: Send,
    <L::Fold as Combiner>::Cell: Send,
    ensures ascend { IfOk result (λ r. All (λ list. IsStrictlySortedBy L.Key.cmp (map (λ row. row.0) list)) r.lists.items) }
    ensures differ { IfOk result (λ r. IsDistinct (eq_by_cmp L.Key.cmp) (map (λ row. row.0) (concatenated r.lists.items))) }
    ensures tasks { IfOk result (λ r. (pairs : ℕ → List (Emission L.Key L.Value)) (all : List ℕ)
        → All (λ h. L.stands h.local (flat_map pairs h.tasks.items)) mapped → IsPermutation all (flat_map (λ h. h.tasks.items) mapped)
        → IsSpreadOf L.Key.cmp L.inside R.folded r.lists.items (noted_of r.faults) (flat_map pairs all)) }
{
    if workers.count() == 1 {
        return gather::<L, R>(workers.alloc, &mapped);
    }
    mapped.arrange(workers.rt, workers.alloc, job.partitions, workers.count());
    let ranges = Ranges::even(workers.alloc, job.partitions, workers.count())?;
    let (queues, passes) = AnyQueues::of(workers.alloc, job.queue, &ranges)?;
    let reduced = reduce_phase::<T, AnyQueues, L, R>(
        workers.rt,
        workers.alloc,
        queues,
        passes,
        job.partitions,
        &mapped,
    )?;
    mapped.free(workers.rt, workers.alloc, workers.count());
    Ok(reduced)
}

/// The same tasks once more.
pub(crate) fn copied(alloc: Global, tasks: &[u32]) -> Result<Few<u32>, Memory>
    ensures { IfOk result (λ copy. copy.items ≡ tasks.now) }
{
    let mut copy = Few::with_room(alloc, 0)?;
    for task in tasks {
        copy.room()?;
        copy.push(*task);
    }
    Ok(copy)
}

// What a worker did.
fn share_of<L: Parted>(alloc: Global, hand: &Hand<L>) -> Result<Share, Memory>
    ensures { IfOk result (λ share. work_of share ≡ (hand.now.tasks.items, L.cell_count hand.now.local)) }
{
    let tasks = copied(alloc, hand.tasks.as_slice())?;
    let cells = hand.cells();
    Ok(Share { tasks, cells })
}

// What each worker did.
fn shares_of<L: Parted>(alloc: Global, mapped: &Mapped<L>) -> Result<Few<Share>, Memory>
    ensures seen { IfOk result (λ shares. workers_of shares.items ≡ map (λ h. (h.tasks.items, L.cell_count h.local)) mapped.now) }
    ensures cells { IfOk result (λ shares. (emits : ℕ → List (Emission L.Key L.Value))
        → All (λ h. L.stands h.local (flat_map emits h.tasks.items)) mapped.now
        → AreShares L.Key.cmp L.inside emits (workers_of shares.items)) }
{
    let mut shares = Few::with_room(alloc, 0)?;
    for worker in 0..mapped.len() {
        let share = share_of(alloc, mapped.hand(worker))?;
        shares.room()?;
        shares.push(share);
    }
    Ok(shares)
}

// What each worker did, where a report is asked for: its hand is the worker's whole work there.
fn told_shares<T, G, L: Parted>(
    workers: &Workers<T, G>,
    mapped: &Mapped<L>,
) -> Result<Few<Share>, Memory>
    requires count { workers.now.reports ≡ true → length mapped.now ≡ workers.now.count }
    ensures { IfOk result (λ shares. (tasks : ℕ) (emits : ℕ → List (Emission L.Key L.Value))
        → IsPermutation (range_with_len 0 tasks) (flat_map (λ h. h.tasks.items) mapped.now)
        → All (λ h. L.stands h.local (flat_map emits h.tasks.items)) mapped.now
        → IsLawfulRound L.Key.cmp L.inside (reported workers.now) tasks emits (workers_of shares.items)) }
{
    if !workers.reports() {
        return Few::with_room(workers.alloc, 0);
    }
    let shares = shares_of(workers.alloc, mapped)?;
    Ok(shares)
}

// Carries what is known of the order of keys as clauses.
fn keys_are_ordered<K: Key>()
    ensures total { IsTotalOrder K.cmp }
    ensures one { IsAntisymmetric K.cmp }
{}

/// One round over these locals, one for each worker, which stand for no emission yet: the rows of what all tasks emit, or the first fault
/// of that. Each worker runs in a thread of its own where one can be made.
///
/// This is the one place where tasks are mapped and cells reduced.
pub(crate) fn run_round<
    T: Threads + Sync,
    G: Gate + Sync,
    L: Parted + Send + Sync,
    M: Mapper<Key = L::Key, Value = L::Value> + Sync,
    R: Reducer<L::Fold> + Send,
>(
    workers: &Workers<T, G>,
    job: &Job,
    mapper: &M,
    locals: Few<L>,
) -> Result<Round<L::Key>, Stop<Fault<L::Key>>>
where
    L::Key: Send + Sync,
    L::Value: Send,
    L::Fold: Send,
    <L::Fold as Combiner>::Cell: Send,
    requires few { M.task_count mapper.now ≤ most_tasks }
    requires locals { (length locals.items ≡ workers.now.count) × All (λ local. L.stands local []) locals.items }
    ensures { IsRoundOfTasks L.Key.cmp L.inside false R.folded
        (reported workers.now) (M.task_count mapper.now) (M.task_emissions mapper.now) result }
{
    keys_are_ordered::<L::Key>();
    let mapped = map_tasks::<T, G, L, M>(workers, job.queue, mapper, locals)?;
    let shares = told_shares(workers, &mapped)?;
    let Reduced { lists, faults } = reduce_cells::<T, G, L, R>(workers, job, mapped)?;
    match faults.first() {
        Some(fault) => Err(Stop::Refused(fault)),
        None => Ok(Round { lists, shares }),
    }
}
