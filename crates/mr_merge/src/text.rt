ghost use Rattle.std.specs.Prelude.{◌≡◌, ◌<◌, ◌∷◌, [], ℕ, List, drop, length, map, slice_index_or, slice_set, All, IfOk};
ghost use Rattle.std.specs.List.{IsDistinct};
ghost use Rattle.std.specs.List.Sorted.{IsStrictlySortedBy};
ghost use Rattle.std.specs.Ordering.{eq_by_cmp};
ghost use Rattle.mr_defs.specs.Partitions.{concatenated};
ghost use Rattle.mr_items.specs.Texts.{rows_text};
ghost use Rattle.mr_merge.specs.Lists.{lent};
ghost use Rattle.mr_merge.specs.Plans.{IsPlan};
ghost use Rattle.mr_merge.specs.Merged.{IsMergedText};
ghost use Rattle.mr_merge.specs.Rising.{Rises, rank};
ghost use Rattle.mr_merge.specs.Taken.{taken_rows};

use crate::cut::ranges_of;
use crate::merge::{are_ordered, entries_of};
use crate::plan::plan_of;
use crate::ranges::values_of;
use mr_base::{Answer, Few, Key, Memory, Rows, Text, push_row};
use std::alloc::Global;
use std::thread;
use std::thread::Threads;

// Takes the first row that is left of a list.
fn take_row<'a, T>(lists: &mut [&'a [T]], number: usize) -> &'a T
    requires inside { number < length lists.old }
    requires some { 0 < length (slice_index_or (lent lists.old) number []) }
    ensures first { slice_index_or (lent lists.old) number [] ≡ result.now ∷ drop 1 (slice_index_or (lent lists.old) number []) }
    ensures rest { lent lists.new ≡ slice_set (lent lists.old) number (drop 1 (slice_index_or (lent lists.old) number [])) }
{
    match lists[number].split_first() {
        Some((row, rest)) => {
            lists[number] = rest;
            row
        }
        None => unreachable!(),
    }
}

// The text of rows that are taken by a plan.
fn text_by<K: Key>(
    alloc: Global,
    mut lists: Vec<&[(K, Answer)]>,
    plan: &[usize],
) -> Result<Text, Memory>
    requires { IsPlan (rank K.cmp) (lent lists.items) plan.now }
    ensures { IfOk result (λ text. text ≡ rows_text K.printed (taken_rows (lent lists.entry.items) plan.now)) }
{
    let mut text = Text::new(alloc);
    for number in plan {
        let row = take_row(&mut lists, *number);
        push_row(&mut text, &row.0, &row.1)?;
    }
    Ok(text)
}

// The text of the rows of a range.
fn text_of<K: Key>(alloc: Global, range: Vec<&[(K, Answer)]>) -> Result<Text, Memory>
    requires { All (λ l. Rises (rank K.cmp) l.now) range.items }
    ensures { IfOk result (λ text. (plan : List ℕ) × IsPlan (rank K.cmp) (lent range.entry.items) plan
        × (text ≡ rows_text K.printed (taken_rows (lent range.entry.items) plan))) }
{
    let plan = plan_of(alloc, &range)?;
    text_by(alloc, range, &plan)
}

// One text behind the other.
fn appended(alloc: Global, texts: Vec<Text>) -> Result<Text, Memory>
    ensures { IfOk result (λ all. all ≡ concatenated texts.items) }
{
    let mut all = Text::new(alloc);
    for text in texts {
        all.push(text.as_bytes())?;
    }
    Ok(all)
}

// Frees lists beside each other, in threads where they can be made.
fn free_all<R: Threads + Sync, T: Drop + Send>(rt: &R, lists: Vec<Vec<T>>) {
    let _freed = thread::map_vec(rt, lists, &|list: Vec<T>| drop(list));
}

/// The text of lists that ascend and whose keys all differ, as one list that ascends: a line for each row. No row is moved.
///
/// Ranges of the lists are planned and printed beside each other, in threads where they can be made.
pub fn merged_text<R: Threads + Sync, K: Key + Send + Sync>(
    rt: &R,
    alloc: Global,
    lists: Few<Rows<K>>,
) -> Result<Text, Memory>
    requires ascend { All (λ list. IsStrictlySortedBy K.cmp (map (λ row. row.0) list)) lists.items }
    requires differ { IsDistinct (eq_by_cmp K.cmp) (map (λ row. row.0) (concatenated lists.items)) }
    ensures { IfOk result (IsMergedText K.cmp K.printed lists.items) }
{
    are_ordered::<K>();
    let entries = entries_of(alloc, lists)?;
    let ranges = ranges_of(alloc, &entries)?;
    let print = |range: Vec<&[(K, Answer)]>| -> Result<Text, Memory>
        requires { All (λ l. Rises (rank K.cmp) l.now) range.items }
        ensures { IfOk result (λ text. (plan : List ℕ) × IsPlan (rank K.cmp) (lent range.entry.items) plan
            × (text ≡ rows_text K.printed (taken_rows (lent range.entry.items) plan))) }
    { text_of(alloc, range) };
    let texts = thread::map_vec(rt, ranges, &print)?;
    let texts = values_of(alloc, texts)?;
    free_all(rt, entries);
    appended(alloc, texts)
}
