ghost use Rattle.std.specs.Prelude.{◌≡◌, [], map, All, Ok, IfOk};
ghost use Rattle.mr_merge.specs.Lists.{lent, lists_of, rows_of};
ghost use Rattle.mr_merge.specs.Plans.{IsPlan};
ghost use Rattle.mr_merge.specs.Rising.{Rises, rank};

use crate::cut::ranges_of;
use crate::plan::plan_of;
use mr_base::{Key, Memory};
use std::alloc::Global;
use std::thread;
use std::thread::Threads;

/// The values, where none is missing.
pub(crate) fn values_of<T: Drop>(
    alloc: Global,
    results: Vec<Result<T, Memory>>,
) -> Result<Vec<T>, Memory>
    ensures { IfOk result (λ values. results.items ≡ map Ok values.items) }
{
    let mut values = Vec::new(alloc);
    for result in results {
        values.push(result?)?;
    }
    Ok(values)
}

// One list behind the other.
fn appended<T: Drop>(alloc: Global, lists: Vec<Vec<T>>) -> Result<Vec<T>, Memory>
    ensures { IfOk result (λ all. all.items ≡ rows_of lists.items) }
{
    let mut all = Vec::new(alloc);
    for mut list in lists {
        all.append(&mut list)?;
    }
    Ok(all)
}

/// From which list row after row is taken, so that the rows don't fall. The lists are cut into ranges, which are planned beside each other,
/// in threads where they can be made.
pub(crate) fn plan_all<R: Threads + Sync, K: Key + Send + Sync, A: Drop + Send + Sync>(
    rt: &R,
    alloc: Global,
    lists: &[Vec<(K, A)>],
) -> Result<Vec<usize>, Memory>
    requires { All (λ l. Rises (rank K.cmp) l.items) lists.now }
    ensures { IfOk result (λ plan. IsPlan (rank K.cmp) (lists_of lists.now) plan.items) }
{
    let ranges = ranges_of(alloc, lists)?;
    let plan_one = |range: Vec<&[(K, A)]>| -> Result<Vec<usize>, Memory>
        requires { All (λ l. Rises (rank K.cmp) l.now) range.items }
        ensures { IfOk result (λ plan. IsPlan (rank K.cmp) (lent range.entry.items) plan.items) }
    { plan_of(alloc, &range) };
    let plans = thread::map_vec(rt, ranges, &plan_one)?;
    let plans = values_of(alloc, plans)?;
    let plan = appended(alloc, plans)?;
    Ok(plan)
}
