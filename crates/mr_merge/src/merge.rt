ghost use Rattle.std.specs.Prelude.{◌≡◌, ◌<◌, ◌∷◌, [], drop, length, map, slice_index_or, slice_set, All, IfOk};
ghost use Rattle.std.specs.Cmp.{IsTotalOrder};
ghost use Rattle.std.specs.List.{IsDistinct};
ghost use Rattle.std.specs.List.Sorted.{IsPermutation, IsStrictlySortedBy};
ghost use Rattle.std.specs.Ordering.{eq_by_cmp};
ghost use Rattle.mr_defs.specs.Partitions.{concatenated};
ghost use Rattle.mr_merge.specs.Lists.{lists_of, rows_of};
ghost use Rattle.mr_merge.specs.Plans.{IsPlan};
ghost use Rattle.mr_merge.specs.Rising.{Rises, rank};

use crate::ranges::plan_all;
use mr_base::{Answer, Few, Key, Memory, Rows};
use std::alloc::Global;
use std::collections::VecDeque;
use std::thread::Threads;

/// The entries of each list. No row is moved.
pub(crate) fn entries_of<K: Key>(
    alloc: Global,
    mut lists: Few<Rows<K>>,
) -> Result<Vec<Vec<(K, Answer)>>, Memory>
    requires { All (λ list. IsStrictlySortedBy K.cmp (map (λ row. row.0) list)) lists.items }
    ensures all { IfOk result (λ entries. IsPermutation (concatenated lists.items) (rows_of entries.items)) }
    ensures rise { IfOk result (λ entries. All (λ list. Rises (rank K.cmp) list.items) entries.items) }
{
    let mut entries = Vec::with_capacity(alloc, lists.len())?;
    while let Some(list) = lists.pop() {
        entries.push(list.into_entries())?;
    }
    Ok(entries)
}

// The list of one that there is.
fn only<K: Drop>(mut lists: Few<Rows<K>>) -> Rows<K>
    requires { length lists.items ≡ 1 }
    ensures { lists.items ≡ result ∷ [] }
{
    match lists.pop() {
        Some(list) => list,
        None => unreachable!(),
    }
}

// The lists, from whose fronts items may be taken. No item is moved.
fn queues_of<T: Drop>(alloc: Global, lists: Vec<Vec<T>>) -> Result<Vec<VecDeque<T>>, Memory>
    ensures { IfOk result (λ queues. map (λ q. q.items) queues.items ≡ lists_of lists.items) }
{
    let mut queues = Vec::with_capacity(alloc, lists.len())?;
    for list in lists {
        queues.push(VecDeque::from_vec(list))?;
    }
    Ok(queues)
}

// Takes the first item of a list.
fn take_first<T>(queues: &mut [VecDeque<T>], number: usize) -> T
    requires inside { number < length queues.old }
    requires some { 0 < length (slice_index_or (map (λ q. q.items) queues.old) number []) }
    ensures first { slice_index_or (map (λ q. q.items) queues.old) number []
        ≡ result ∷ drop 1 (slice_index_or (map (λ q. q.items) queues.old) number []) }
    ensures rest { map (λ q. q.items) queues.new
        ≡ slice_set (map (λ q. q.items) queues.old) number (drop 1 (slice_index_or (map (λ q. q.items) queues.old) number [])) }
{
    match queues[number].pop_front() {
        Some(item) => item,
        None => unreachable!(),
    }
}

// Moves the rows by a plan.
fn merge_by<K: Key, A: Drop>(
    alloc: Global,
    lists: Vec<Vec<(K, A)>>,
    plan: &[usize],
) -> Result<Vec<(K, A)>, Memory>
    requires { IsPlan (rank K.cmp) (lists_of lists.items) plan.now }
    ensures all { IfOk result (λ rows. IsPermutation (rows_of lists.items) rows.items) }
    ensures rises { IfOk result (λ rows. Rises (rank K.cmp) rows.items) }
{
    let mut rows = Vec::with_capacity(alloc, plan.len())?;
    let mut queues = queues_of(alloc, lists)?;
    for number in plan {
        let row = take_first(&mut queues, *number);
        rows.push(row)?;
    }
    Ok(rows)
}

/// The order of the keys is total: its laws, where threads are at hand.
pub(crate) fn are_ordered<K: Key>()
    ensures { IsTotalOrder K.cmp }
{}

/// Merges lists that ascend and whose keys all differ into one that ascends and has all their rows. One list comes back as it is.
///
/// Ranges of the lists are planned beside each other, in threads where they can be made; then each row is moved once.
pub fn merge_all<R: Threads + Sync, K: Key + Send + Sync>(
    rt: &R,
    alloc: Global,
    lists: Few<Rows<K>>,
) -> Result<Rows<K>, Memory>
    requires ascend { All (λ list. IsStrictlySortedBy K.cmp (map (λ row. row.0) list)) lists.items }
    requires differ { IsDistinct (eq_by_cmp K.cmp) (map (λ row. row.0) (concatenated lists.items)) }
    ensures all { IfOk result (λ rows. IsPermutation (concatenated lists.items) rows) }
    ensures ascends { IfOk result (λ rows. IsStrictlySortedBy K.cmp (map (λ row. row.0) rows)) }
{
    if lists.len() == 1 {
        return Ok(only(lists));
    }
    are_ordered::<K>();
    let entries = entries_of(alloc, lists)?;
    let plan = plan_all(rt, alloc, &entries)?;
    let rows = merge_by(alloc, entries, &plan)?;
    Ok(Rows::from_entries(rows))
}
