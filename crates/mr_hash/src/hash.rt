ghost use Rattle.std.specs.Prelude.{◌≡◌, ◌&&◌, ◌≤◌, ◌%◌, ◌∷◌, ◌++◌, [], ℕ, true, is_some, length, Option, Some, None, IfOk, OnOk, OnErr};
ghost use Rattle.std.specs.FinMap.{find};
ghost use Rattle.mr_defs.specs.Limits.{greatest_capacity};
ghost use Rattle.mr_defs.specs.Stands.{StandsFor};
ghost use Rattle.mr_base.specs.Noting.{noted_of};
ghost use Rattle.std.proofs.Common.{ap, refl};
ghost use Rattle.mr_container.specs.Laws.{any_order, kept};
ghost use Rattle.mr_hash.specs.Pairs.{pairs_of};

use crate::ahead::{NO_CLUE, NOWHERE, read_pairs};
use crate::near::{Near, emit_all};
use crate::table::Table;
use mr_base::{Faults, Key, Memory, keep_lesser};
use mr_combine::Combiner;
use mr_container::{Cursor, Local, Parted};
use std::alloc::Global;
use std::boxed::Box;
use std::mem;

// So many pairs of a block are looked for side by side: as many as mappers hand over at once, who wait for 256 and may go some words beyond.
const SIDE_BY_SIDE: usize = 512;

// A table that is made in the place of one that was given away has room for so many cells, with an index of 131072 slots.
const ROOM: usize = 65536;

// A table of fewer cells is not given away: its index fits the cache of one processor. So many are three quarters of the room, so that a worker
// that asks after each task gives its table away before the index grows once more.
const FULL: usize = 49152;

// A table combines little where at most so many pairs were emitted for so many cells. One that combines more is kept, since most of the pairs
// to come will find their keys there.
const FEW_PAIRS: u64 = 6;

const FOR_CELLS: u64 = 5;

/// Keys with their cells, in N buckets, where N is from 1 to 65536.
///
/// Every key is inside. A key stands in the bucket of its hash modulo N, and its partition is that bucket modulo the number of partitions.
/// Where the combiner is fixed, it is spilled from 49152 cells on, if no more than six pairs were emitted for five cells.
#[derive(Drop)]
pub struct HashLocal<K: Key, C: Combiner, const N: usize> {
    table: Table<K, C, N>,
    // In a box, so that the size of a local doesn't hang on its keys'.
    faults: Box<Faults<K>>,
    // How many pairs were emitted since the table had no entry, modulo 2^64.
    pairs: u64,
    alloc: Global,
}

impl<K: Key, C: Combiner, const N: usize> HashLocal<K, C, N> {
    /// A local with no cell.
    pub fn new(alloc: Global) -> Result<HashLocal<K, C, N>, Memory>
        requires some { 1 ≤ N }
        requires few { N ≤ greatest_capacity }
        ensures empty { IfOk result (λ local. ⟦<HashLocal<K, C, N> as Local>⟧.stands local []) }
        ensures inside { (k : K) → ⟦<HashLocal<K, C, N> as Parted>⟧.inside k ≡ true }
        ensures parts { (parts : ℕ) (k : K) → ⟦<HashLocal<K, C, N> as Parted>⟧.part_of parts k ≡ K.hash_of k % N % parts }
    {
        HashLocal::with_room(alloc, 0)
    }

    // A local with no cell, and with room for so many.
    fn with_room(alloc: Global, cells: usize) -> Result<HashLocal<K, C, N>, Memory>
        requires some { 1 ≤ N }
        requires few { N ≤ greatest_capacity }
        ensures { IfOk result (λ local. ⟦<HashLocal<K, C, N> as Local>⟧.stands local []) }
    {
        let table = Table::with_room(alloc, cells)?;
        let faults = Box::new(alloc, Faults::none())?;
        Ok(HashLocal {
            table,
            faults,
            pairs: 0,
            alloc,
        })
    }

    // Whether the table has grown large and combines little.
    fn combines_little(&self) -> bool {
        let cells = self.table.entries.len();
        cells >= FULL && self.pairs.saturating_mul(FOR_CELLS) <= cells as u64 * FEW_PAIRS
    }
}

impl<K: Key, C: Combiner, const N: usize> Near for HashLocal<K, C, N> {
    type Key = K;

    type Value = C::Value;

    ghost stands = { λ s es. StandsFor K.cmp (λ _. true) C.unit_of C.merged (λ k. find K.cmp k (pairs_of s.table.entries.items))
        (length s.table.entries.items) (noted_of s.faults.value) es };

    ghost same = { λ s t. (t.table.entries.items ≡ s.table.entries.items) × (noted_of t.faults.value ≡ noted_of s.faults.value) };

    ghost spares = { λ s k. C.fixed && is_some (find K.cmp k (pairs_of s.table.entries.items)) };

    ghost same_keeps = { λ s t e. kept K.cmp (λ _. true) C.unit_of C.merged _ _ _ _ _ _ (λ k. ap (λ es. find K.cmp k (pairs_of es)) e.0)
        (ap length e.0) e.1 };

    #[inline(always)]
    fn emit_near(&mut self, near: usize, key: K, value: C::Value) -> Result<(), Memory> {
        self.table.emit(self.alloc, near, key, value)
    }
}

impl<K: Key, C: Combiner, const N: usize> Local for HashLocal<K, C, N> {
    type Key = K;

    type Value = C::Value;

    ghost stands = { λ s es. ⟦<HashLocal<K, C, N> as Near>⟧.stands s es };

    ghost noted = { λ s. noted_of s.faults.value };

    ghost cell_count = { λ s. length s.table.entries.items };

    ghost same_origin = { λ _ _. Unit {0} };

    ghost same = { λ s t. ⟦<HashLocal<K, C, N> as Near>⟧.same s t };

    ghost spares = { λ s k. ⟦<HashLocal<K, C, N> as Near>⟧.spares s k };

    ghost any_order = { λ s es fs p h. any_order K.total K.only_equal_tie (λ _. true) C.laws C.unit_of _ _ _ es fs p h };

    ghost same_refl = { λ _. (refl, refl) };

    ghost same_keeps = { λ s t e. (
      kept K.cmp (λ _. true) C.unit_of C.merged _ _ _ _ _ _ (λ k. ap (λ es. find K.cmp k (pairs_of es)) e.0) (ap length e.0) e.1,
      e.1,
      ap length e.0,
      λ k. ap (λ es. C.fixed && is_some (find K.cmp k (pairs_of es))) e.0,
    ) };

    ghost origin_refl = { λ _. tt };

    ghost origin_trans = { λ _ _ _ _ _. tt };

    fn emit(&mut self, key: K, value: C::Value) -> Result<(), Memory> {
        self.pairs = self.pairs.wrapping_add(1);
        self.emit_near(NOWHERE as usize, key, value)
    }

    fn emit_block(&mut self, block: &mut Vec<(K, C::Value)>) -> Result<(), Memory> {
        let mut clues = [NO_CLUE; SIDE_BY_SIDE];
        let mut places = [NOWHERE; SIDE_BY_SIDE];
        let count = block.len().min(SIDE_BY_SIDE);
        read_pairs(block, &mut clues);
        self.table.look_ahead(&clues[..count], &mut places);
        self.pairs = self.pairs.wrapping_add(block.len() as u64);
        emit_all(self, &places, block)
    }

    fn spill(&mut self, alloc: Global) -> Result<Option<HashLocal<K, C, N>>, Memory> {
        if !C::is_fixed() || !self.combines_little() {
            return Ok(None);
        }
        let fresh = HashLocal::with_room(alloc, ROOM)?;
        Ok(Some(mem::replace(self, fresh)))
    }

    fn too_large(&mut self, key: K) {
        keep_lesser(&mut self.faults.over, Some(key));
    }

    fn malformed(&mut self, offset: u64) {
        keep_lesser(&mut self.faults.malformed, Some(offset));
    }

    fn cells(&self) -> u64 {
        self.table.entries.len() as u64
    }

    fn faults(&self) -> &Faults<K> {
        &self.faults
    }
}

impl<K: Key, C: Combiner, const N: usize> Parted for HashLocal<K, C, N> {
    ghost use Rattle.std.specs.Prelude.{◌≡◌, ◌≤◌, ◌%◌, true, is_some, drop};
    ghost use Rattle.std.specs.FinMap.{find};
    ghost use Rattle.std.proofs.Common.{ap};
    ghost use Rattle.mr_container.specs.Laws.{both_true, never_outside, part_below, part_nests};
    ghost use Rattle.mr_hash.specs.Pairs.{pairs_of};
    ghost use Rattle.mr_hash.specs.Buckets.{of_partition};

    type Fold = C;

    ghost inside = { λ _. true };

    ghost cell = { λ s k. find K.cmp k (pairs_of s.table.entries.items) };

    ghost part_of = { λ parts k. K.hash_of k % N % parts };

    ghost stands_in = { λ s c. 1 ≤ c.parts };

    ghost left = { λ s c. of_partition K.hash_of N c.parts c.part (drop c.place (pairs_of s.table.entries.items)) };

    ghost means = { λ s es h. h };

    ghost whole_meaning = { λ s es h. h };

    ghost same_cells = { λ s t e k. ap (λ es. find K.cmp k (pairs_of es)) e.0 };

    ghost same_cursors = { λ s t e c h. (h, ap (λ es. of_partition K.hash_of N c.parts c.part (drop c.place (pairs_of es))) e.0) };

    ghost spares_present = { λ s k f p. both_true _ _ f p };

    ghost spares_outside = { λ s k e. never_outside e };

    ghost parts_below = { λ parts k h. part_below (K.hash_of k % N) parts h };

    ghost parts_nest = { λ parts times k h m. part_nests (K.hash_of k % N) parts times };

    fn arrange(&mut self, alloc: Global, parts: u32) -> Result<(), Memory> {
        if parts > 1 {
            self.table.chain(alloc, parts)?;
        }
        Ok(())
    }

    fn cursor(&self, part: u32, parts: u32) -> Cursor {
        Cursor {
            part,
            parts,
            place: self.table.first_place(part, parts),
            within: 0,
        }
    }

    fn next(&self, cursor: &mut Cursor) -> Option<(&K, &C::Cell)> {
        while cursor.place < self.table.buckets.len() as u64 {
            let at = cursor.place as usize;
            if self.table.buckets[at] as u32 % cursor.parts == cursor.part {
                cursor.place = self.table.place_after(at, cursor.parts);
                let entry = &self.table.entries[at];
                return Some((&entry.key, &entry.cell));
            }
            cursor.place += 1;
        }
        None
    }
}
