ghost use Rattle.std.specs.Prelude.{◌≡◌, ◌<◌, ◌≤◌, ◌∷◌, ◌++◌, ◌+◌, ◌*◌, [], ◌%◌, ℕ, true, cond, is_some, length, map, vec_len};
ghost use Rattle.std.specs.Prelude.{vec_capacity, Option, Some, None, IfOk, IsOk, OnOk, OnErr, MatchOption, slice_index};
ghost use Rattle.std.specs.List.{HoldsAt, IsDistinct, IsDistinct-prop};
ghost use Rattle.std.specs.FinMap.{find};
ghost use Rattle.std.specs.Ordering.{eq_by_cmp};
ghost use Rattle.std.specs.declared.cmp.Ordering.TheVariants.{Equal};
ghost use Rattle.mr_defs.specs.Commutative.{joined};
ghost use Rattle.mr_defs.specs.Limits.{greatest_capacity};
ghost use Rattle.mr_hash.specs.Chaining.{IsChained, IsChained-prop};
ghost use Rattle.mr_hash.specs.Pairs.{pairs_of, keys_of};
ghost use Rattle.mr_hash.specs.Slots.{Indexed, Indexed-prop};

use crate::ahead::{Clue, near_places, same_leads, slot_words};
use crate::chains::{Chains, chained, no_chains};
use crate::entry::Entry;
use crate::slots::{empty_index, free_slot, indexed, place_at, slot_at, tag_at, word_at};
use mr_base::{Key, Memory};
use mr_combine::Combiner;
use std::alloc::Global;

// A first index of 16 slots, which the highest 4 of a code's 64 bits tell apart.
const FEWEST_SLOTS: usize = 16;

const FIRST_SHIFT: u32 = 60;

// As many as 32 bits tell apart, so that no more than half as many entries find a place.
const MOST_SLOTS: usize = 4294967296;

/// Keys with their cells, in the order in which the keys came, an index that finds them by their code, and the bucket of each.
///
/// Values are emitted into it pair by pair, and the cells of other tables are joined into it entry by entry. At most half of the index is
/// full.
#[derive(Drop)]
pub struct Table<K: Key, C: Combiner, const N: usize> {
    pub entries: Vec<Entry<K, C::Cell>>,
    pub buckets: Vec<u16>,
    // Of the entries that are there; with none where one has come since.
    chains: Chains,
    index: Vec<u32>,
    // By so many bits a code is moved down to tell its first slot: as the index grows twice as long, one less.
    shift: u32,
    ghost some_buckets: { 1 ≤ N },
    ghost few_buckets: { N ≤ greatest_capacity },
    ghost half: { 2 * vec_len entries ≤ vec_len index },
    ghost some_slots: { 16 ≤ vec_len index },
    ghost few_slots: { vec_len index ≤ 4294967296 },
    ghost shifts: { shift < 64 },
    ghost distinct: { IsDistinct (eq_by_cmp K.cmp) (keys_of entries.items) } by { IsDistinct-prop _ _ },
    ghost in_buckets: { buckets.items ≡ map (λ k. K.hash_of k % N) (keys_of entries.items) },
    ghost chained: { IsChained chains.heads.items chains.links.items buckets.items } by { IsChained-prop _ _ _ },
    ghost found: { Indexed (vec_len index) shift index.items (map K.code_of (keys_of entries.items)) } by { Indexed-prop _ _ _ _ },
}

impl<K: Key, C: Combiner, const N: usize> Table<K, C, N> {
    /// A table with no entry, and with room for so many or more before its index grows, as far as an index can grow.
    pub fn with_room(alloc: Global, cells: usize) -> Result<Table<K, C, N>, Memory>
        requires some { 1 ≤ N }
        requires few { N ≤ greatest_capacity }
        ensures { IfOk result (λ table. table.entries.items ≡ []) }
    {
        let (size, shift) = slots_for(cells);
        let index = empty_index(alloc, size)?;
        let entries = Vec::with_capacity(alloc, size / 2)?;
        let buckets = Vec::with_capacity(alloc, size / 2)?;
        Ok(Table {
            entries,
            buckets,
            chains: no_chains(alloc),
            index,
            shift,
        })
    }

    /// Combines the value into the cell of its key, which may stand at the place that is near. After `Memory` the entries and the index are
    /// unchanged.
    #[inline(always)]
    pub fn emit(
        &mut self,
        alloc: Global,
        near: usize,
        key: K,
        value: C::Value,
    ) -> Result<(), Memory>
        requires value { C.Value.allowed value }
        ensures cells { OnOk result ((q : K) → find K.cmp q (pairs_of self.new.entries.items)
            ≡ cond (eq_by_cmp K.cmp q key) (joined C.merged (find K.cmp key (pairs_of self.old.entries.items)) (Some (C.unit_of value)))
            (find K.cmp q (pairs_of self.old.entries.items))) }
        ensures len { OnOk result (length self.new.entries.items
            ≡ cond (is_some (find K.cmp key (pairs_of self.old.entries.items))) (length self.old.entries.items)
            (length self.old.entries.items + 1)) }
        ensures err { OnErr result (self.new.entries.items ≡ self.old.entries.items) }
        ensures index { OnErr result (self.new.index.items ≡ self.old.index.items) }
        ensures no_memory { C.fixed ≡ true → is_some (find K.cmp key (pairs_of self.old.entries.items)) ≡ true → IsOk result }
    {
        match self.find(near, &key) {
            Some(at) => {
                let entry = &mut self.entries[at];
                C::add(&mut entry.cell, value)
            }
            None => {
                let cell = C::unit(alloc, value)?;
                self.insert(alloc, key, cell)?;
                Ok(())
            }
        }
    }

    /// Merges the cell into that of its key, which may stand at the place that is near; copies both where the key is new. After `Memory` the
    /// entries and the index are unchanged.
    #[inline(always)]
    pub fn join(
        &mut self,
        alloc: Global,
        near: usize,
        key: &K,
        cell: &C::Cell,
    ) -> Result<(), Memory>
        ensures cells { OnOk result ((q : K) → find K.cmp q (pairs_of self.new.entries.items)
            ≡ cond (eq_by_cmp K.cmp q key.now) (joined C.merged (find K.cmp key.now (pairs_of self.old.entries.items)) (Some cell.now))
            (find K.cmp q (pairs_of self.old.entries.items))) }
        ensures len { OnOk result (length self.new.entries.items
            ≡ cond (is_some (find K.cmp key.now (pairs_of self.old.entries.items))) (length self.old.entries.items)
            (length self.old.entries.items + 1)) }
        ensures err { OnErr result (self.new.entries.items ≡ self.old.entries.items) }
        ensures index { OnErr result (self.new.index.items ≡ self.old.index.items) }
        ensures no_memory { C.fixed ≡ true → is_some (find K.cmp key.now (pairs_of self.old.entries.items)) ≡ true → IsOk result }
    {
        match self.find(near, key) {
            Some(at) => {
                let entry = &mut self.entries[at];
                C::merge(&mut entry.cell, cell)
            }
            None => {
                let copied = key.copy(alloc)?;
                let first = C::copy(alloc, cell)?;
                self.insert(alloc, copied, first)?;
                Ok(())
            }
        }
    }

    // Where the entry of the key is: at the place that is near, or where its slots lead.
    #[inline(always)]
    fn find(&self, near: usize, key: &K) -> Option<usize>
        ensures within { MatchOption result (Unit {0}) (λ at. at < vec_len self.now.entries) }
        ensures place { MatchOption result (find K.cmp key.now (pairs_of self.now.entries.items) ≡ None)
            (λ at. HoldsAt (λ e. K.cmp key.now e.key ≡ Equal) self.now.entries.items at) }
    {
        if near < self.entries.len() && *key == self.entries[near].key {
            return Some(near);
        }
        self.search(key)
    }

    // Where the slots of the key lead to its entry. A word with another tag tells no place of an entry, or the place of another key's.
    #[inline(never)]
    fn search(&self, key: &K) -> Option<usize>
        ensures within { MatchOption result (Unit {0}) (λ at. at < vec_len self.now.entries) }
        ensures place { MatchOption result (find K.cmp key.now (pairs_of self.now.entries.items) ≡ None)
            (λ at. HoldsAt (λ e. K.cmp key.now e.key ≡ Equal) self.now.entries.items at) }
    {
        let code = key.code();
        let size = self.index.len();
        let tag = tag_at(size, code);
        for distance in 0..size {
            let word = self.index[slot_at(size, self.shift, code, distance)];
            if word == 0 {
                return None;
            }
            let at = place_at(size, tag, word);
            if at < self.entries.len() && *key == self.entries[at].key {
                return Some(at);
            }
        }
        None
    }

    // Makes the index twice as long where half of it would be full. A table that is full answers Memory.
    fn grow(&mut self, alloc: Global) -> Result<(), Memory>
        ensures entries { self.new.entries.items ≡ self.old.entries.items }
        ensures len { vec_len self.new.entries ≡ vec_len self.old.entries }
        ensures capacity { vec_capacity self.new.entries ≡ vec_capacity self.old.entries }
        ensures buckets { self.new.buckets.items ≡ self.old.buckets.items }
        ensures buckets_len { vec_len self.new.buckets ≡ vec_len self.old.buckets }
        ensures buckets_capacity { vec_capacity self.new.buckets ≡ vec_capacity self.old.buckets }
        ensures room { OnOk result (2 * (vec_len self.new.entries + 1) ≤ vec_len self.new.index) }
        ensures index { OnErr result (self.new.index.items ≡ self.old.index.items) }
    {
        let size = self.index.len();
        if size / 2 <= self.entries.len() {
            if size > MOST_SLOTS / 2 {
                return Err(Memory);
            }
            let shift = self.shift.saturating_sub(1);
            self.index = indexed(alloc, &self.entries, 2 * size, shift)?;
            self.shift = shift;
        }
        Ok(())
    }

    // Puts in a key that is not there.
    #[inline(never)]
    fn insert(&mut self, alloc: Global, key: K, cell: C::Cell) -> Result<(), Memory>
        requires absent { find K.cmp key (pairs_of self.old.entries.items) ≡ None }
        ensures ok { OnOk result (self.new.entries.items ≡ self.old.entries.items ++ record { cell = cell; key = key } ∷ []) }
        ensures len { OnOk result (vec_len self.new.entries ≡ vec_len self.old.entries + 1) }
        ensures err { OnErr result (self.new.entries.items ≡ self.old.entries.items) }
        ensures index { OnErr result (self.new.index.items ≡ self.old.index.items) }
    {
        self.entries.reserve(1)?;
        self.buckets.reserve(1)?;
        self.grow(alloc)?;
        let bucket = bucket_of::<K, N>(&key);
        let code = key.code();
        let count = self.entries.len();
        let size = self.index.len();
        let free = free_slot(&self.index, self.shift, code);
        self.chains.heads.clear();
        self.entries.push_reserved(Entry { cell, key });
        self.buckets.push_reserved(bucket);
        self.index[free] = word_at(size, tag_at(size, code), count);
        Ok(())
    }
}

impl<K: Key, C: Combiner, const N: usize> Table<K, C, N> {
    ghost use Rattle.std.specs.Prelude.{◌≡◌, ◌≢◌, ◌<◌, ◌≤◌, ◌%◌, ℕ, length, slice_index};

    /// Finds where the keys with these clues may stand, place by place; a number that is no place where none is near.
    // Each step is a small loop of its own, whose loads wait for nothing, so that many are under way at once.
    pub fn look_ahead(&self, clues: &[Clue], places: &mut [u32])
        ensures { length places.new ≡ length places.old }
    {
        slot_words(&self.index, self.shift, clues, places);
        near_places(&self.index, self.shift, self.entries.len(), clues, places);
        same_leads(&self.entries, clues, places);
    }

    /// Chains the entries of each of so many partitions, so that none of another is passed. Takes 4 bytes an entry.
    pub fn chain(&mut self, alloc: Global, parts: u32) -> Result<(), Memory>
        requires { 1 ≤ parts }
        ensures { self.new.entries.items ≡ self.old.entries.items }
    {
        self.chains = chained(alloc, &self.buckets, parts)?;
        Ok(())
    }

    /// A place before which no entry is one of the partition.
    pub fn first_place(&self, part: u32, parts: u32) -> u64
        ensures { (place : ℕ) → place < length self.now.buckets.items → place < result
            → slice_index self.now.buckets.items place % parts ≢ part }
    {
        let heads = &self.chains.heads;
        if heads.len() == parts as usize && (part as usize) < heads.len() {
            heads[part as usize] as u64
        } else {
            0
        }
    }

    /// A later place, before which no entry but this one is one of its partition.
    pub fn place_after(&self, at: usize, parts: u32) -> u64
        requires some { 1 ≤ parts }
        requires at { at < length self.now.buckets.items }
        ensures later { at < result }
        ensures passed { (place : ℕ) → place < length self.now.buckets.items → at < place → place < result
            → slice_index self.now.buckets.items place % parts ≢ slice_index self.now.buckets.items at % parts }
    {
        let chains = &self.chains;
        if chains.heads.len() == parts as usize && at < chains.links.len() {
            chains.links[at] as u64
        } else {
            at as u64 + 1
        }
    }
}

// How many slots an index has of which so many entries fill no more than half, and its shift.
fn slots_for(cells: usize) -> (usize, u32)
    ensures some { 16 ≤ result.0 }
    ensures few { result.0 ≤ 4294967296 }
    ensures shift { result.1 < 64 }
{
    let mut size = FEWEST_SLOTS;
    let mut shift = FIRST_SHIFT;
    while size / 2 < cells && size <= MOST_SLOTS / 2 {
        size *= 2;
        shift = shift.saturating_sub(1);
    }
    (size, shift)
}

// The bucket of a key: its hash modulo N. A hash takes time, so none is taken where there is one bucket.
fn bucket_of<K: Key, const N: usize>(key: &K) -> u16
    requires some { 1 ≤ N }
    requires few { N ≤ greatest_capacity }
    ensures { result ≡ K.hash_of key.now % N }
{
    if N == 1 {
        return 0;
    }
    (key.hash() % N as u64) as u16
}
