ghost use Rattle.std.specs.Prelude.{◌≡◌, ◌==◌, ◌<◌, ◌≤◌, ◌++◌, None, if◌then◌else◌, IfOk, OnOk, flat_map};
ghost use Rattle.mr_defs.specs.Commutative.{joined_by};
ghost use Rattle.mr_container.specs.Entries.{cell_in, seen_of};
ghost use Rattle.mr_hash.specs.Pairs.{pairs_of};
ghost use Rattle.mr_phase.specs.Partition.{IsReducedAt};

use crate::mapped::Mapped;
use crate::partition::{Partition, read_hands, reduce_entries};
use mr_base::{Key, Memory};
use mr_combine::{Combiner, Reducer};
use mr_container::Parted;
use mr_hash::{Entry, join_all};
use std::alloc::Global;

// The entries of one part of all hands, those of a key joined: a list for each of the finer parts into which it is taken apart. One list of
// what is read serves all of them.
fn joined_parts<L: Parted>(
    alloc: Global,
    mapped: &Mapped<L>,
    part: u32,
    parts: u32,
    finer: u32,
) -> Result<Vec<Vec<Entry<L::Key, <L::Fold as Combiner>::Cell>>>, Memory>
    requires some { (1 ≤ parts) × (1 ≤ finer) }
    requires few { (parts ≤ 64) × (finer ≤ 64) }
    requires part { part < parts }
    ensures { IfOk result (λ lists. (k : L.Key)
        → joined_by L.Fold.merged (cell_in L.Key.cmp k) (flat_map (λ list. pairs_of list.items) lists.items)
        ≡ (if L.part_of parts k == part then joined_by L.Fold.merged (λ h. L.cell h.local k) mapped.now else None)) }
{
    let mut entries = Vec::new(alloc);
    let mut lists = Vec::with_capacity(alloc, finer as usize)?;
    for nth in 0..finer {
        read_hands(mapped, part + nth * parts, parts * finer, &mut entries)?;
        let list = join_all::<L::Key, L::Fold>(alloc, &entries)?;
        lists.push(list)?;
    }
    Ok(lists)
}

// How many entries the lists have together, or the greatest number where that is more.
fn count_of<K: Key, C: Drop>(lists: &[Vec<Entry<K, C>>]) -> usize {
    let mut count: usize = 0;
    for list in lists {
        count = count.saturating_add(list.len());
    }
    count
}

// Lends the entries of a list behind the others.
fn lend_entries<'a, K: Key, C: Drop>(
    list: &'a [Entry<K, C>],
    lent: &mut Vec<(&'a K, &'a C)>,
) -> Result<(), Memory>
    ensures { OnOk result (seen_of lent.new.items ≡ seen_of lent.old.items ++ pairs_of list.now) }
{
    for entry in list {
        lent.push((&entry.key, &entry.cell))?;
    }
    Ok(())
}

// Lends the entries of all lists, one list behind the other.
fn list_joined<'a, K: Key, C: Drop>(
    alloc: Global,
    lists: &'a [Vec<Entry<K, C>>],
) -> Result<Vec<(&'a K, &'a C)>, Memory>
    ensures { IfOk result (λ lent. seen_of lent.items ≡ flat_map (λ list. pairs_of list.items) lists.now) }
{
    let mut lent = Vec::with_capacity(alloc, count_of(lists))?;
    for list in lists {
        lend_entries(list.as_slice(), &mut lent)?;
    }
    Ok(lent)
}

/// Reduces one partition of the keys of all hands, taken apart into so many finer parts, from 1 to 64: the entries of each are joined, so
/// that a key stands once, before all are put in order.
pub(crate) fn reduce_joined<L: Parted, R: Reducer<L::Fold>>(
    alloc: Global,
    mapped: &Mapped<L>,
    part: u32,
    parts: u32,
    finer: u32,
) -> Result<Partition<L::Key>, Memory>
    requires some { (1 ≤ parts) × (1 ≤ finer) }
    requires few { (parts ≤ 64) × (finer ≤ 64) }
    requires part { part < parts }
    ensures part { IfOk result (λ p. p.part ≡ part) }
    ensures reduced { IfOk result
        (λ p. IsReducedAt L.Key.cmp (λ k. joined_by L.Fold.merged (λ h. L.cell h.local k) mapped.now)
        (L.part_of parts) L.Fold.over R.answer part p) }
{
    let lists = joined_parts(alloc, mapped, part, parts, finer)?;
    let entries = list_joined(alloc, lists.as_slice())?;
    let room = entries.len();
    let made = reduce_entries::<L::Key, L::Fold, R>(alloc, part, room, entries)?;
    Ok(made)
}
