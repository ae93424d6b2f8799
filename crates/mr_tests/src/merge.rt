ghost use Rattle.std.specs.Prelude.{◌≡◌, ◌+◌, ◌*◌, ◌<◌, ◌≤◌, ◌∷◌, [], pos, length, map, All, IfOk};
ghost use Rattle.std.specs.List.{IsDistinct, range_with_len};
ghost use Rattle.std.specs.List.Sorted.{IsStrictlySortedBy};
ghost use Rattle.std.specs.Ordering.{nat_cmp, eq_by_cmp};
ghost use Rattle.mr_defs.specs.Partitions.{concatenated};

use mr_base::{Answer, Few, Memory, NumKey, Rows, Text, push_row};
use mr_merge::{merge_all, merged_text};
use std::alloc::Global;
use std::test::Fail;
use std::thread::Threads;

// The list of one row.
fn single(alloc: Global, key: u64, number: i128) -> Result<Rows<NumKey>, Memory>
    ensures { IfOk result (λ rows. rows ≡ (key, number ∷ []) ∷ []) }
{
    let mut rows = Rows::new(alloc);
    rows.push(NumKey(key), Answer::one(number))?;
    Ok(rows)
}

// Three lists, of which one has no row.
fn three_lists(alloc: Global) -> Result<Few<Rows<NumKey>>, Memory>
    ensures { IfOk result (λ lists. lists.items ≡ ((9, pos 90 ∷ []) ∷ []) ∷ [] ∷ ((1, pos 10 ∷ []) ∷ []) ∷ []) }
{
    let mut lists = Few::with_room(alloc, 3)?;
    lists.push(single(alloc, 9, 90)?);
    lists.push(Rows::new(alloc));
    lists.push(single(alloc, 1, 10)?);
    Ok(lists)
}

#[test]
fn merged(rt: HostRuntime) -> Result<(), Fail> {
    let lists = three_lists(rt.alloc())?;
    let rows = merge_all(&rt, rt.alloc(), lists)?;
    assert!(rt; rows.len() == 2);
    assert!(rt; rows.key(0) == &NumKey(1));
    assert!(rt; rows.key(1) == &NumKey(9));
    Ok(())
}

// A list whose keys rise by 64.
fn ladder(alloc: Global, from: u64, count: u32) -> Result<Rows<NumKey>, Memory>
    requires { from < 64 }
    ensures { IfOk result (λ rows. map (λ row. row.0) rows ≡ map (λ j. j * 64 + from) (range_with_len 0 count)) }
{
    let mut rows = Rows::new(alloc);
    for j in 0..count {
        rows.push(NumKey(j as u64 * 64 + from), Answer::one(1))?;
    }
    Ok(rows)
}

// Lists with so many rows each, whose keys all differ.
fn ladders(alloc: Global, counts: &[u32]) -> Result<Few<Rows<NumKey>>, Memory>
    requires { length counts.now ≤ 64 }
    ensures ascend { IfOk result (λ lists. All (λ list. IsStrictlySortedBy nat_cmp (map (λ row. row.0) list)) lists.items) }
    ensures differ { IfOk result (λ lists. IsDistinct (eq_by_cmp nat_cmp) (map (λ row. row.0) (concatenated lists.items))) }
{
    let mut lists = Few::with_room(alloc, 0)?;
    for i in 0..counts.len() {
        let list = ladder(alloc, i as u64, counts[i])?;
        lists.room()?;
        lists.push(list);
    }
    Ok(lists)
}

// Whether each key is greater than the one before it.
fn rise(rows: &Rows<NumKey>) -> bool {
    for i in 1..rows.len() {
        if rows.key(i) <= rows.key(i - 1) {
            return false;
        }
    }
    true
}

// The lines of rows.
fn lines_of(alloc: Global, rows: &Rows<NumKey>) -> Result<Text, Memory> {
    let mut lines = Text::new(alloc);
    for i in 0..rows.len() {
        push_row(&mut lines, rows.key(i), rows.answer(i))?;
    }
    Ok(lines)
}

// Merges lists with so many rows each. Whether all rows came, ascending, and the merged text has just their lines.
fn is_merged<R: Threads + Sync>(
    rt: &R,
    alloc: Global,
    counts: &[u32],
    all: usize,
) -> Result<bool, Memory>
    requires { length counts.now ≤ 64 }
{
    let lists = ladders(alloc, counts)?;
    let rows = merge_all(rt, alloc, lists)?;
    let lines = lines_of(alloc, &rows)?;
    let lists = ladders(alloc, counts)?;
    let text = merged_text(rt, alloc, lists)?;
    Ok(rows.len() == all && rise(&rows) && text.as_bytes() == lines.as_bytes())
}

#[test]
fn lengths(rt: HostRuntime) -> Result<(), Fail> {
    assert!(rt; is_merged(&rt, rt.alloc(), &[], 0)?);
    assert!(rt; is_merged(&rt, rt.alloc(), &[3], 3)?);
    assert!(rt; is_merged(&rt, rt.alloc(), &[0, 0, 0], 0)?);
    assert!(rt; is_merged(&rt, rt.alloc(), &[0, 2, 0], 2)?);
    assert!(rt; is_merged(&rt, rt.alloc(), &[9000, 1, 0, 70], 9071)?);
    assert!(rt; is_merged(&rt, rt.alloc(), &[3000, 3000, 3000], 9000)?);
    assert!(rt; is_merged(&rt, rt.alloc(), &[1025, 1024], 2049)?);
    assert!(rt; is_merged(&rt, rt.alloc(), &[40; 64], 2560)?);
    Ok(())
}
