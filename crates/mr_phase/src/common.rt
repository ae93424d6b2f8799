ghost use Rattle.std.specs.Prelude.{◌≡◌, ◌≤◌, ◌<◌, [], None, All, IfOk, length, map, flat_map, nat_lt, reverse};
ghost use Rattle.std.specs.List.{range_with_len};
ghost use Rattle.std.specs.List.Sorted.{IsPermutation};
ghost use Rattle.std.specs.Ordering.{nat_cmp};
ghost use Rattle.mr_defs.specs.Faulty.{common_faults_of};
ghost use Rattle.mr_defs.specs.Folded.{once_folded};
ghost use Rattle.mr_defs.specs.Keyed.{keys_inside};
ghost use Rattle.mr_defs.specs.Limits.{greatest_capacity};
ghost use Rattle.mr_defs.specs.Rows.{cells_of, rows_of};
ghost use Rattle.mr_base.specs.Noting.{noted_of};
ghost use Rattle.mr_base.specs.Tasks.{AreAll, AreUnused};
ghost use Rattle.mr_common.specs.Passes.{ArePassesOf, IsUnused};
ghost use Rattle.mr_phase.specs.Common.{AreWon, IsLeft, hand_of};
ghost use Rattle.mr_phase.specs.Spread.{noted_all};

use crate::hands::turned;
use crate::map::map_phase;
use crate::mapped::Mapped;
use mr_base::{Faults, Few, Memory, NumKey, Rows, TaskQueues};
use mr_common::{CommonArray, CommonLocal, CommonPass};
use mr_container::{Local, Mapper};
use mr_outside::Gate;
use std::alloc::Global;
use std::thread::Threads;

/// What a worker has after a phase over the common array: its tasks in the order in which it took them, and how many pairs it won.
#[derive(Drop)]
pub struct CommonHand {
    pub tasks: Few<u32>,
    pub cells: u64,
}

/// What a phase over the common array gives: the pairs that were won, as rows that ascend by key, the faults, each the least of its kind,
/// and what each worker has.
#[derive(Drop)]
pub struct CommonDone {
    pub rows: Rows<NumKey>,
    pub faults: Faults<NumKey>,
    pub hands: Few<CommonHand>,
}

// What the workers leave: what each has, the last first; the passes at the array; and the faults, each the least of its kind.
#[derive(Drop)]
pub(crate) struct Left {
    hands: Few<CommonHand>,
    passes: Few<CommonPass>,
    faults: Faults<NumKey>,
}

// A local over the array by each pass.
fn locals_over<'a>(
    alloc: Global,
    array: &'a CommonArray,
    mut passes: Few<CommonPass>,
) -> Result<Few<CommonLocal<'a>>, Memory>
    requires passes { ArePassesOf array.now.table.shared.table_id array.now.size passes.items × All IsUnused passes.items }
    ensures count { IfOk result (λ locals. length locals.items ≡ length passes.items) }
    ensures over { IfOk result (λ locals. All (λ l. l.array.now ≡ array.now) locals.items) }
    ensures empty { IfOk result (λ locals. All (λ l. ⟦<CommonLocal<'a> as Local>⟧.stands l []) locals.items) }
{
    let mut locals = Few::with_room(alloc, 0)?;
    while let Some(pass) = passes.pop() {
        locals.room()?;
        locals.push(CommonLocal::new(array, pass));
    }
    Ok(locals)
}

// Takes the hands apart, the last first.
fn leave_all<'a>(alloc: Global, mapped: Mapped<CommonLocal<'a>>) -> Result<Left, Memory>
    ensures hands { IfOk result (λ left. left.hands.items ≡ map hand_of (reverse mapped.entry)) }
    ensures passes { IfOk result (λ left. left.passes.items ≡ map (λ h. h.local.pass) (reverse mapped.entry)) }
    ensures faults { IfOk result (λ left. noted_of left.faults ≡ noted_all nat_cmp (λ h. noted_of h.local.faults) (reverse mapped.entry)) }
{
    let mut all = mapped.hands;
    let mut hands = Few::with_room(alloc, 0)?;
    let mut passes = Few::with_room(alloc, 0)?;
    let mut faults = Faults::none();
    while let Some(hand) = all.pop() {
        hands.room()?;
        passes.room()?;
        let cells = hand.local.cells();
        let (pass, more) = hand.local.leave();
        faults.merge(more);
        passes.push(pass);
        hands.push(CommonHand {
            tasks: hand.tasks,
            cells,
        });
    }
    Ok(Left {
        hands,
        passes,
        faults,
    })
}

// Maps each task once, into the array by the pass of the worker that took it.
fn map_into<
    R: Threads + Sync,
    Q: TaskQueues + Sync + Drop,
    M: Mapper<Key = NumKey, Value = i64> + Sync,
    G: Gate + Sync,
>(
    rt: &R,
    alloc: Global,
    queues: Q,
    passes: Few<Q::Pass>,
    array: &CommonArray,
    own: Few<CommonPass>,
    mapper: &M,
    gate: &G,
) -> Result<Left, Memory>
    requires passes { AreAll (Q.count queues) (Q.is_of queues) Q.number passes.items × AreUnused Q.given Q.ended passes.items }
    requires few { (0 < Q.count queues) × (Q.count queues ≤ 32) }
    requires own { ArePassesOf array.now.table.shared.table_id array.now.size own.items × All IsUnused own.items
        × (length own.items ≡ length passes.items) }
    requires total { Q.total queues ≡ M.task_count mapper.now }
    ensures { IfOk result (IsLeft array.now (Q.count queues) (M.task_count mapper.now) (M.task_emissions mapper.now)) }
{
    let locals = locals_over(alloc, array, own)?;
    let mapped = map_phase(rt, alloc, queues, passes, locals, mapper, gate, false)?;
    leave_all(alloc, mapped)
}

/// Maps each task once, into one array of this size, from 1 to 65536, which all workers share: the first pair of a key is won, and every
/// later one refused. Workers and gate are as in `map_phase`.
///
/// The rows are the pairs that were won, one for each key below the size that was emitted, and a key that was emitted more than once is a
/// fault.
pub fn common_phase<
    R: Threads + Sync,
    Q: TaskQueues + Sync + Drop,
    M: Mapper<Key = NumKey, Value = i64> + Sync,
    G: Gate + Sync,
>(
    rt: &R,
    alloc: Global,
    queues: Q,
    passes: Few<Q::Pass>,
    mapper: &M,
    gate: &G,
    size: u32,
) -> Result<CommonDone, Memory>
    requires passes { AreAll (Q.count queues) (Q.is_of queues) Q.number passes.items × AreUnused Q.given Q.ended passes.items }
    requires few { (0 < Q.count queues) × (Q.count queues ≤ 32) }
    requires total { Q.total queues ≡ M.task_count mapper.now }
    requires size { (1 ≤ size) × (size ≤ greatest_capacity) }
    ensures count { IfOk result (λ done. length done.hands.items ≡ Q.count queues) }
    ensures once { IfOk result
        (λ done. IsPermutation (range_with_len 0 (M.task_count mapper.now)) (flat_map (λ h. h.tasks.items) done.hands.items)) }
    ensures faults { IfOk result (λ done. noted_of done.faults ≡ common_faults_of nat_cmp (λ k. nat_lt k size)
        (flat_map (M.task_emissions mapper.now) (range_with_len 0 (M.task_count mapper.now)))) }
    ensures won { IfOk result (λ done. AreWon (M.task_emissions mapper.now) done.rows done.hands.items) }
    ensures keys { IfOk result (λ done. map (λ row. row.0) done.rows ≡ keys_inside nat_cmp (λ k. nat_lt k size)
        (flat_map (M.task_emissions mapper.now) (range_with_len 0 (M.task_count mapper.now)))) }
    ensures rows { IfOk result (λ done. done.faults.twice ≡ None → done.rows ≡ rows_of nat_cmp (λ k. nat_lt k size) once_folded
        (flat_map (M.task_emissions mapper.now) (range_with_len 0 (M.task_count mapper.now)))) }
    ensures cells { IfOk result (λ done. done.faults.twice ≡ None
        → All (λ h. h.cells ≡ cells_of nat_cmp (λ k. nat_lt k size) (flat_map (M.task_emissions mapper.now) h.tasks.items))
        done.hands.items) }
{
    let (array, own) = CommonArray::new(alloc, size, passes.len() as u32)?;
    let left = map_into(rt, alloc, queues, passes, &array, own, mapper, gate)?;
    let hands = turned(alloc, left.hands)?;
    let rows = array.finish(alloc, left.passes)?;
    Ok(CommonDone {
        rows,
        faults: left.faults,
        hands,
    })
}
