ghost use Rattle.std.specs.Prelude.{◌≡◌, ◌++◌, true, false, map, All, IfOk};
ghost use Rattle.std.specs.Ordering.{is_lt};
ghost use Rattle.mr_merge.specs.Lists.{lent, lists_of};
ghost use Rattle.mr_merge.specs.Plans.{IsCut, IsCutOff};
ghost use Rattle.mr_merge.specs.Rising.{Rises, rank};

use crate::lesser::is_lesser;
use mr_base::{Key, Memory};
use std::alloc::Global;

// Into how many ranges long lists are cut, and how many rows of the longest list a range has at least. Fewer don't pay for a thread.
const RANGES: usize = 16;

const LEAST: usize = 1024;

// Cuts a list before the first row whose key isn't lesser than this one.
fn cut_list<'a, K: Key, A>(list: &'a [(K, A)], key: &K) -> (&'a [(K, A)], &'a [(K, A)])
    requires { Rises (rank K.cmp) list.now }
    ensures all { list.now ≡ result.0.now ++ result.1.now }
    ensures lesser { All (λ x. is_lt (K.cmp x.0 key.now) ≡ true) result.0.now }
    ensures others { All (λ x. is_lt (K.cmp x.0 key.now) ≡ false) result.1.now }
{
    let at = list.partition_point(
        |x: &(K, A)| -> bool
            ensures { result ≡ is_lt (K.cmp x.now.0 key.entry.now) }
        { is_lesser(&x.0, key) },
    );
    list.split_at(at)
}

// Cuts each list at this key.
fn cut_at<'a, K: Key, A>(
    alloc: Global,
    lists: &[&'a [(K, A)]],
    key: &K,
) -> Result<(Vec<&'a [(K, A)]>, Vec<&'a [(K, A)]>), Memory>
    requires { All (λ l. Rises (rank K.cmp) l.now) lists.now }
    ensures cut { IfOk result (λ r. IsCutOff (rank K.cmp) (lent lists.now) (lent r.0.items) (lent r.1.items)) }
    ensures fronts { IfOk result (λ r. All (λ l. Rises (rank K.cmp) l.now) r.0.items) }
    ensures backs { IfOk result (λ r. All (λ l. Rises (rank K.cmp) l.now) r.1.items) }
{
    let mut fronts = Vec::with_capacity(alloc, lists.len())?;
    let mut backs = Vec::with_capacity(alloc, lists.len())?;
    for list in lists {
        let (front, back) = cut_list(*list, key);
        fronts.push(front)?;
        backs.push(back)?;
    }
    Ok((fronts, backs))
}

// The lists, to read.
fn slices_of<T>(alloc: Global, lists: &[Vec<T>]) -> Result<Vec<&[T]>, Memory>
    ensures { IfOk result (λ slices. lent slices.items ≡ lists_of lists.now) }
{
    let mut slices = Vec::with_capacity(alloc, lists.len())?;
    for list in lists {
        slices.push(list.as_slice())?;
    }
    Ok(slices)
}

// The longest of the lists.
fn longest<'a, T>(lists: &[&'a [T]]) -> &'a [T] {
    let mut longest: &'a [T] = &[];
    for list in lists {
        if longest.len() < list.len() {
            longest = *list;
        }
    }
    longest
}

/// Cuts all lists at a few keys of the longest, at which it has as many rows between each two.
pub(crate) fn ranges_of<K: Key, A>(
    alloc: Global,
    lists: &[Vec<(K, A)>],
) -> Result<Vec<Vec<&[(K, A)]>>, Memory>
    requires { All (λ l. Rises (rank K.cmp) l.items) lists.now }
    ensures cut { IfOk result (λ ranges. IsCut (rank K.cmp) (lists_of lists.now) (map (λ r. lent r.items) ranges.items)) }
    ensures rise { IfOk result (λ ranges. All (λ r. All (λ l. Rises (rank K.cmp) l.now) r.items) ranges.items) }
{
    let mut rest = slices_of(alloc, lists)?;
    let rows = longest(&rest);
    let size = (rows.len() / RANGES + 1).max(LEAST);
    let mut ranges = Vec::with_capacity(alloc, RANGES)?;
    for row in rows.iter().step_by(size).skip(1) {
        let (fronts, backs) = cut_at(alloc, &rest, &row.0)?;
        ranges.push(fronts)?;
        rest = backs;
    }
    ranges.push(rest)?;
    Ok(ranges)
}
