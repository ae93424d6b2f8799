ghost use Rattle.std.specs.Prelude.{◌≡◌, ◌≤◌, ◌<◌, [], ℕ, false, List, All, length, flat_map, slice_get, Some, IfOk};
ghost use Rattle.std.specs.List.{range_with_len};
ghost use Rattle.std.specs.List.Sorted.{IsPermutation};
ghost use Rattle.mr_base.specs.Tasks.{AreAll, AreUnused};
ghost use Rattle.mr_phase.specs.declared.hands.Hand.{Hand};
ghost use Rattle.mr_phase.specs.Held.{HoldsFor, IsOfOrigin};
ghost use Rattle.mr_phase.specs.Partition.{itself};
ghost use Rattle.mr_phase.specs.Works.{AreOf, AreFrom, IsFresh, AreFresh, IsDone, AreDone};

use crate::hands::{Hand, Held, hands_of, hold_each};
use crate::mapped::Mapped;
use mr_base::{Few, Memory, TaskQueues};
use mr_container::{Local, Mapper};
use mr_outside::Gate;
use std::alloc::Global;
use std::thread;
use std::thread::Threads;

// What one worker has during the phase.
#[derive(Drop)]
pub(crate) struct Work<P, L> {
    worker: u32,
    pub(crate) pass: P,
    pub(crate) tasks: Few<u32>,
    pub(crate) local: L,
    // It found no memory, and stopped.
    pub(crate) starved: bool,
    // It keeps two workers out of one cache line.
    padding: [u64; 16],
}

// Takes tasks until there is none left or no memory. The place for a task is there before the task is taken.
fn work_through<Q: TaskQueues, L: Local, M: Mapper<Key = L::Key, Value = L::Value>, G: Gate>(
    alloc: Global,
    queues: &Q,
    mapper: &M,
    gate: &G,
    spills: bool,
    work: &mut Work<Q::Pass, Held<L>>,
)
    requires total { Q.total queues.now ≡ M.task_count mapper.now }
    requires fresh { IsFresh (Q.is_of queues.now) Q.number Q.given (HoldsFor spills L.stands (M.task_emissions mapper.now)) work.old }
    ensures { IsDone (Q.is_of queues.now) Q.number Q.given Q.ended (IsOfOrigin L.same_origin)
        (HoldsFor spills L.stands (M.task_emissions mapper.now)) itself work.old work.new }
{
    loop {
        if work.tasks.room().is_err() {
            work.starved = true;
            return;
        }
        let Some(task) = queues.take(&mut work.pass) else {
            return;
        };
        work.tasks.push(task);
        gate.enter(work.worker, task);
        let Ok(()) = work.local.map(alloc, mapper, task, spills) else {
            work.starved = true;
            return;
        };
    }
}

// Runs the workers, each in a thread of its own where one can be made.
fn run_all<
    R: Threads + Sync,
    Q: TaskQueues + Sync,
    L: Local + Send + Drop,
    M: Mapper<Key = L::Key, Value = L::Value> + Sync,
    G: Gate + Sync,
>(
    rt: &R,
    alloc: Global,
    queues: &Q,
    mapper: &M,
    gate: &G,
    spills: bool,
    works: &mut Few<Work<Q::Pass, Held<L>>>,
)
where
    L::Key: Send,
    L::Value: Send,
    requires some { 0 < length works.old.items }
    requires total { Q.total queues.now ≡ M.task_count mapper.now }
    requires fresh { AreFresh (Q.is_of queues.now) Q.number Q.given (HoldsFor spills L.stands (M.task_emissions mapper.now)) works.old.items }
    ensures len { length works.new.items ≡ length works.old.items }
    ensures done { AreDone (Q.is_of queues.now) Q.number Q.given Q.ended (IsOfOrigin L.same_origin)
        (HoldsFor spills L.stands (M.task_emissions mapper.now)) itself works.old.items works.new.items }
{
    let count = works.len();
    let work_one = |_: usize, work: &mut Work<Q::Pass, Held<L>>|
        requires { (Q.total queues.now ≡ M.task_count mapper.now)
            × IsFresh (Q.is_of queues.now) Q.number Q.given (HoldsFor spills L.stands (M.task_emissions mapper.now)) work.old }
        ensures { IsDone (Q.is_of queues.entry.now) Q.number Q.given Q.ended (IsOfOrigin L.same_origin)
            (HoldsFor spills L.stands (M.task_emissions mapper.entry.now)) itself work.old work.new }
    { work_through(alloc, queues, mapper, gate, spills, work) };
    thread::for_each_mut(rt, works.as_mut_slice(), count, &work_one);
}

// The workers, the last pass first. The passes leave their room behind.
pub(crate) fn equip<P: Drop, L: Drop>(
    alloc: Global,
    passes: &mut Few<P>,
    mut locals: Few<L>,
) -> Result<Few<Work<P, L>>, Memory>
    requires { (length passes.old.items ≡ length locals.items) × (length passes.old.items ≤ 32) }
    ensures all { IfOk result (λ works. AreOf passes.old.items locals.items works.items) }
    ensures empty { IfOk result (λ _. (passes.new.items ≡ []) × (length passes.old.items ≤ passes.new.spare)) }
{
    let mut works = Few::with_room(alloc, passes.len() as u32)?;
    while let Some(pass) = passes.pop() {
        let Some(local) = locals.pop() else {
            unreachable!()
        };
        works.push(Work {
            worker: passes.len() as u32,
            pass,
            tasks: Few::with_room(alloc, 0)?,
            local,
            starved: false,
            padding: [0; 16],
        });
    }
    Ok(works)
}

// Puts the passes and the hands of the workers, the last of which has the first, into lists with room for them. Memory where a worker was
// starved.
pub(crate) fn dismiss<P: Drop, L: Drop>(
    mut works: Few<Work<P, L>>,
    mut passes: Few<P>,
    mut hands: Few<Hand<L>>,
) -> Result<(Few<P>, Few<Hand<L>>), Memory>
    requires empty { (passes.items ≡ []) × (hands.items ≡ []) }
    requires room { (length works.items ≤ passes.spare) × (length works.items ≤ hands.spare) }
    ensures { IfOk result (λ r. AreFrom works.items r.0.items r.1.items) }
{
    while let Some(work) = works.pop() {
        if work.starved {
            return Err(Memory);
        }
        passes.push(work.pass);
        hands.push(Hand {
            tasks: work.tasks,
            local: work.local,
        });
    }
    Ok((passes, hands))
}

/// Maps each task once, into the local of the worker that took it. Worker `w` has pass `w`, and enters the gate as `w` before each of its
/// tasks; it runs in a thread of its own where one can be made.
///
/// Where `spills`, a worker gives its local away whenever that `spill`s, as a hand of its own with the tasks for which it stands; the hands
/// are those that were given away and the last one of each worker. Otherwise there is one hand a worker: they stand in the order of the
/// passes, each with the local that was given at its place. A worker that finds no memory stops; the others end, and the answer is
/// `Memory`.
pub fn map_phase<
    R: Threads + Sync,
    Q: TaskQueues + Sync + Drop,
    L: Local + Send + Drop,
    M: Mapper<Key = L::Key, Value = L::Value> + Sync,
    G: Gate + Sync,
>(
    rt: &R,
    alloc: Global,
    queues: Q,
    mut passes: Few<Q::Pass>,
    locals: Few<L>,
    mapper: &M,
    gate: &G,
    spills: bool,
) -> Result<Mapped<L>, Memory>
where
    L::Key: Send,
    L::Value: Send,
    requires passes { AreAll (Q.count queues) (Q.is_of queues) Q.number passes.items × AreUnused Q.given Q.ended passes.items }
    requires few { (0 < Q.count queues) × (Q.count queues ≤ 32) }
    requires locals { (length locals.items ≡ length passes.items) × All (λ local. L.stands local []) locals.items }
    requires total { Q.total queues ≡ M.task_count mapper.now }
    ensures count { spills ≡ false → IfOk result (λ hands. length hands ≡ Q.count queues) }
    ensures once { IfOk result (λ hands. IsPermutation (range_with_len 0 (M.task_count mapper.now)) (flat_map (λ h. h.tasks.items) hands)) }
    ensures stands { IfOk result (λ hands. All (λ h. L.stands h.local (flat_map (M.task_emissions mapper.now) h.tasks.items)) hands) }
    ensures origin { spills ≡ false → IfOk result
        (λ hands. (i : ℕ) (l : L) (h : Hand L) → slice_get locals.items i ≡ Some l → slice_get hands i ≡ Some h → L.same_origin l h.local) }
{
    let workers = Few::with_room(alloc, passes.len() as u32)?;
    let helds = hold_each(alloc, locals)?;
    let mut works = equip(alloc, &mut passes, helds)?;
    run_all(rt, alloc, &queues, mapper, gate, spills, &mut works);
    let (passes, workers) = dismiss(works, passes, workers)?;
    queues.finish(passes);
    let hands = hands_of(alloc, workers)?;
    Ok(Mapped { hands })
}
