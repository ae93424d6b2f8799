ghost use Rattle.std.specs.Prelude.{◌≡◌, ◌≤◌, Bool, None, All, IfOk, List, ℕ, ℤ, flat_map, length, map, true};
ghost use Rattle.std.specs.List.{range_with_len};
ghost use Rattle.std.specs.List.Sorted.{IsPermutation};
ghost use Rattle.std.specs.Ordering.{nat_cmp};
ghost use Rattle.mr_base.specs.Noting.{noted_of};
ghost use Rattle.mr_capacity.specs.Folds.{folded};
ghost use Rattle.mr_capacity.specs.declared.kinds.CombinerKind.TheVariants as combiner;
ghost use Rattle.mr_capacity.specs.declared.kinds.ContainerKind.TheVariants as container;
ghost use Rattle.mr_defs.specs.Emission.{Emission};
ghost use Rattle.mr_defs.specs.Faulty.{common_faults_of};
ghost use Rattle.mr_defs.specs.Folded.{once_folded};
ghost use Rattle.mr_defs.specs.Limits.{greatest_capacity};
ghost use Rattle.mr_defs.specs.Rows.{cells_of, rows_of};
ghost use Rattle.mr_defs.specs.Tasks.{most_tasks};
ghost use Rattle.mr_items.specs.Keys.{below};
ghost use Rattle.mr_jobs.specs.Meaning.{inside_of, is_shared};
ghost use Rattle.mr_jobs.specs.Reported.{reported};
ghost use Rattle.mr_jobs.specs.RoundOf.{IsRoundOfTasks};
ghost use Rattle.mr_jobs.specs.Shares.{IsLawfulRound};
ghost use Rattle.mr_report.specs.Shown.{workers_of};

use crate::output::only;
use crate::phases::{Round, copied};
use crate::round::size_of;
use crate::workers::Workers;
use mr_base::{Fault, Few, Memory, NumKey, Ranges, Stop};
use mr_capacity::QueueKind;
use mr_container::Mapper;
use mr_jobfile::Job;
use mr_outside::Gate;
use mr_phase::{CommonDone, CommonHand, common_phase};
use mr_queues::AnyQueues;
use mr_report::Share;
use std::alloc::Global;
use std::thread::Threads;

// Maps each task once, into one array of this size.
fn map_shared<T: Threads + Sync, G: Gate + Sync, M: Mapper<Key = NumKey, Value = i64> + Sync>(
    workers: &Workers<T, G>,
    queue: QueueKind,
    mapper: &M,
    size: u32,
) -> Result<CommonDone, Memory>
    requires few { M.task_count mapper.now ≤ most_tasks }
    requires size { (1 ≤ size) × (size ≤ greatest_capacity) }
    ensures count { IfOk result (λ done. length done.hands.items ≡ workers.now.count) }
    ensures once { IfOk result (λ done. IsPermutation (range_with_len 0 (M.task_count mapper.now))
        (flat_map (λ h. h.tasks.items) done.hands.items)) }
    ensures faults { IfOk result (λ done. noted_of done.faults ≡ common_faults_of nat_cmp (below size)
        (flat_map (M.task_emissions mapper.now) (range_with_len 0 (M.task_count mapper.now)))) }
    ensures rows { IfOk result (λ done. done.faults.twice ≡ None → done.rows ≡ rows_of nat_cmp (below size) once_folded
        (flat_map (M.task_emissions mapper.now) (range_with_len 0 (M.task_count mapper.now)))) }
    ensures cells { IfOk result (λ done. done.faults.twice ≡ None
        → All (λ h. h.cells ≡ cells_of nat_cmp (below size) (flat_map (M.task_emissions mapper.now) h.tasks.items)) done.hands.items) }
{
    let ranges = Ranges::even(workers.alloc, mapper.tasks(), workers.count())?;
    let (queues, passes) = AnyQueues::of(workers.alloc, queue, &ranges)?;
    common_phase(
        workers.rt,
        workers.alloc,
        queues,
        passes,
        mapper,
        workers.gate,
        size,
    )
}

// What each worker did.
fn shares_of(alloc: Global, hands: &Few<CommonHand>) -> Result<Few<Share>, Memory>
    ensures { IfOk result (λ shares. workers_of shares.items ≡ map (λ h. (h.tasks.items, h.cells)) hands.now.items) }
{
    let mut shares = Few::with_room(alloc, 0)?;
    for hand in hands.as_slice() {
        let tasks = copied(alloc, hand.tasks.as_slice())?;
        shares.room()?;
        shares.push(Share {
            tasks,
            cells: hand.cells,
        });
    }
    Ok(shares)
}

// What each worker did, where a report is asked for.
fn told_shares<T, G>(workers: &Workers<T, G>, hands: &Few<CommonHand>) -> Result<Few<Share>, Memory>
    requires count { length hands.now.items ≡ workers.now.count }
    ensures { IfOk result (λ shares. (inside : ℕ → Bool) (tasks : ℕ) (emits : ℕ → List (Emission ℕ ℤ))
        → IsPermutation (range_with_len 0 tasks) (flat_map (λ h. h.tasks.items) hands.now.items)
        → All (λ h. h.cells ≡ cells_of nat_cmp inside (flat_map emits h.tasks.items)) hands.now.items
        → IsLawfulRound nat_cmp inside (reported workers.now) tasks emits (workers_of shares.items)) }
{
    if !workers.reports() {
        return Few::with_room(workers.alloc, 0);
    }
    let shares = shares_of(workers.alloc, hands)?;
    Ok(shares)
}

// A round in an array that has as many places as the job's capacity: the rows of what all tasks emit, or the first fault of that.
fn common_round<T: Threads + Sync, G: Gate + Sync, M: Mapper<Key = NumKey, Value = i64> + Sync>(
    workers: &Workers<T, G>,
    job: &Job,
    mapper: &M,
) -> Result<Round<NumKey>, Stop<Fault<NumKey>>>
    requires tasks { M.task_count mapper.now ≤ most_tasks }
    ensures { IsRoundOfTasks nat_cmp (below job.now.capacity) true once_folded
        (reported workers.now) (M.task_count mapper.now) (M.task_emissions mapper.now) result }
{
    let done = map_shared(workers, job.queue, mapper, size_of(job))?;
    match done.faults.first() {
        Some(fault) => Err(Stop::Refused(fault)),
        None => Ok(Round {
            lists: only(workers.alloc, done.rows)?,
            shares: told_shares(workers, &done.hands)?,
        }),
    }
}

/// The same in the terms of a job whose workers share the array, so that each key is emitted at most once.
pub(crate) fn once_round<
    T: Threads + Sync,
    G: Gate + Sync,
    M: Mapper<Key = NumKey, Value = i64> + Sync,
>(workers: &Workers<T, G>, job: &Job, mapper: &M) -> Result<Round<NumKey>, Stop<Fault<NumKey>>>
    requires tasks { M.task_count mapper.now ≤ most_tasks }
    requires shared { job.now.container ≡ container.Common }
    requires once { job.now.combiner ≡ combiner.Once }
    ensures { IsRoundOfTasks nat_cmp (inside_of job.now.container job.now.capacity) (is_shared job.now.container)
        (folded job.now.combiner job.now.reducer)
        (reported workers.now) (M.task_count mapper.now) (M.task_emissions mapper.now) result }
{
    common_round(workers, job, mapper)
}
