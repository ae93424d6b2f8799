ghost use Rattle.std.specs.Prelude.{◌≡◌, ◌==◌, ◌<◌, ◌≤◌, ◌++◌, [], None, if◌then◌else◌, IfOk, OnOk};
ghost use Rattle.std.specs.List.{cons_option};
ghost use Rattle.mr_defs.specs.Commutative.{joined, joined_by};
ghost use Rattle.mr_defs.specs.Keyed.{lesser};
ghost use Rattle.mr_container.specs.Entries.{cell_in, seen_of};
ghost use Rattle.mr_phase.specs.Partition.{AreFolded, IsReducedAt};
ghost use Rattle.mr_phase.specs.Reduced.{entry_row, over_key};

use crate::ahead::{Ahead, are_equal};
use crate::entries::add_part;
use crate::joined::reduce_joined;
use crate::mapped::Mapped;
use mr_base::{Key, Memory, Rows, keep_lesser};
use mr_combine::{Combiner, Reducer};
use mr_container::Parted;
use std::alloc::Global;

/// The rows of a partition, ascending by key, and its least key that is over.
#[derive(Drop)]
pub(crate) struct Partition<K> {
    pub(crate) part: u32,
    pub(crate) rows: Rows<K>,
    pub(crate) over: Option<K>,
}

impl<K: Key> Partition<K> {
    // Adds a key with its cell: a row, or a key that is over.
    fn put<C: Combiner, R: Reducer<C>>(
        &mut self,
        alloc: Global,
        key: &K,
        cell: C::Cell,
    ) -> Result<(), Memory>
        ensures part { self.new.part ≡ self.old.part }
        ensures rows { OnOk result (self.new.rows ≡ self.old.rows ++ cons_option (entry_row C.over R.answer (key.now, cell)) []) }
        ensures over { OnOk result (self.new.over ≡ joined (lesser K.cmp) self.old.over (over_key C.over (key.now, cell))) }
    {
        let key = key.copy(alloc)?;
        if C::is_over(&cell) {
            keep_lesser(&mut self.over, Some(key));
        } else {
            let answer = R::reduce(alloc, cell)?;
            self.rows.push(key, answer)?;
        }
        Ok(())
    }
}

/// Reads the entries of one part of all hands into a list in place of what it had, hand by hand: a key stands once for each hand that has it.
pub(crate) fn read_hands<'a, L: Parted>(
    mapped: &'a Mapped<L>,
    part: u32,
    parts: u32,
    entries: &mut Vec<(&'a L::Key, &'a <L::Fold as Combiner>::Cell)>,
) -> Result<(), Memory>
    requires some { 1 ≤ parts }
    requires part { part < parts }
    ensures { OnOk result ((k : L.Key) → joined_by L.Fold.merged (cell_in L.Key.cmp k) (seen_of entries.new.items)
        ≡ (if L.part_of parts k == part then joined_by L.Fold.merged (λ h. L.cell h.local k) mapped.now else None)) }
{
    entries.clear();
    for hand in mapped.hands.as_slice() {
        add_part(&hand.local, part, parts, entries)?;
    }
    Ok(())
}

/// Merges the entries of one key, the cell of the first copied and the others merged into it, and reduces what they come to. Room for so
/// many rows is taken at once.
pub(crate) fn reduce_entries<'a, K: Key, C: Combiner, R: Reducer<C>>(
    alloc: Global,
    part: u32,
    room: usize,
    entries: Vec<(&'a K, &'a C::Cell)>,
) -> Result<Partition<K>, Memory>
    ensures part { IfOk result (λ p. p.part ≡ part) }
    ensures folds { IfOk result (λ p. AreFolded K.cmp C.merged C.over R.answer entries.entry.items p) }
{
    let mut made = Partition {
        part,
        rows: Rows::from_entries(Vec::with_capacity(alloc, room)?),
        over: None,
    };
    let mut ahead = Ahead::of(alloc, entries)?;
    let Some((_, first, one)) = ahead.take(alloc)? else {
        return Ok(made);
    };
    let mut key = first;
    let mut cell = C::copy(alloc, one)?;
    while let Some((lead, next, other)) = ahead.take(alloc)? {
        if are_equal(key, lead, next) {
            C::merge(&mut cell, other)?;
        } else {
            made.put::<C, R>(alloc, key, cell)?;
            key = next;
            cell = C::copy(alloc, other)?;
        }
    }
    made.put::<C, R>(alloc, key, cell)?;
    Ok(made)
}

/// Reduces one partition of the keys of all hands, all of whose entries are put in order as they are read.
pub(crate) fn reduce_read<L: Parted, R: Reducer<L::Fold>>(
    alloc: Global,
    mapped: &Mapped<L>,
    part: u32,
    parts: u32,
) -> Result<Partition<L::Key>, Memory>
    requires some { 1 ≤ parts }
    requires part { part < parts }
    ensures part { IfOk result (λ p. p.part ≡ part) }
    ensures reduced { IfOk result
        (λ p. IsReducedAt L.Key.cmp (λ k. joined_by L.Fold.merged (λ h. L.cell h.local k) mapped.now)
        (L.part_of parts) L.Fold.over R.answer part p) }
{
    let mut entries = Vec::new(alloc);
    read_hands(mapped, part, parts, &mut entries)?;
    let made = reduce_entries::<L::Key, L::Fold, R>(alloc, part, 0, entries)?;
    Ok(made)
}

/// Reduces one partition of the keys of all hands: the cells of a key are merged, and a key whose merged cell is not over has a row. There
/// are 64 partitions at most. Where the hands have many entries, those of a key are joined before the keys are put in order.
pub(crate) fn reduce_partition<L: Parted, R: Reducer<L::Fold>>(
    alloc: Global,
    mapped: &Mapped<L>,
    part: u32,
    parts: u32,
) -> Result<Partition<L::Key>, Memory>
    requires some { 1 ≤ parts }
    requires few { parts ≤ 64 }
    requires part { part < parts }
    ensures part { IfOk result (λ p. p.part ≡ part) }
    ensures reduced { IfOk result
        (λ p. IsReducedAt L.Key.cmp (λ k. joined_by L.Fold.merged (λ h. L.cell h.local k) mapped.now)
        (L.part_of parts) L.Fold.over R.answer part p) }
{
    let finer = mapped.finer(parts);
    if finer == 1 {
        return reduce_read::<L, R>(alloc, mapped, part, parts);
    }
    reduce_joined::<L, R>(alloc, mapped, part, parts, finer)
}
