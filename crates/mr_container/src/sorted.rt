ghost use Rattle.std.specs.Prelude.{◌≡◌, ◌&&◌, ◌<◌, ◌≤◌, ◌%◌, ◌∷◌, ◌++◌, [], ℕ, T, true, is_some, length, map, vec_len, Option, IfOk};
ghost use Rattle.std.specs.Prelude.{IfErr};
ghost use Rattle.std.specs.FinMap.{find, is_sorted};
ghost use Rattle.std.specs.List.{HoldsAt};
ghost use Rattle.std.specs.List.Sorted.{IsPartitionPoint, IsSearchInRange, IsStrictlySortedBy};
ghost use Rattle.std.specs.declared.cmp.Ordering.TheVariants.{Less, Equal, Greater};
ghost use Rattle.std.proofs.Common.{refl, sym, ap, ◌∙◌};
ghost use Rattle.mr_defs.specs.Stands.{StandsFor};
ghost use Rattle.mr_base.specs.Noting.{noted_of};
ghost use Rattle.mr_container.specs.Laws.{any_order, kept};

use crate::cursor::Cursor;
use crate::local::Local;
use crate::parted::Parted;
use mr_base::{Faults, Key, Memory, keep_lesser};
use mr_combine::Combiner;
use std::alloc::Global;
use std::cmp::Ordering;

/// Keys with their cells, in one list that ascends by key.
///
/// The plain container: every key is inside, the partition of a key is its hash modulo their number, and a cursor gives its keys
/// ascending.
#[derive(Drop)]
pub struct SortedLocal<K: Key, C: Combiner> {
    entries: Vec<(K, C::Cell)>,
    faults: Faults<K>,
    alloc: Global,
    ghost ascending: { T (is_sorted K.cmp entries.items) },
}

impl<K: Key, C: Combiner> SortedLocal<K, C> {
    /// A local with no cell. Takes no memory.
    pub fn new(alloc: Global) -> SortedLocal<K, C>
        ensures empty { ⟦<SortedLocal<K, C> as Local>⟧.stands result [] }
        ensures inside { (k : K) → ⟦<SortedLocal<K, C> as Parted>⟧.inside k ≡ true }
        ensures parts { (parts : ℕ) (k : K) → ⟦<SortedLocal<K, C> as Parted>⟧.part_of parts k ≡ K.hash_of k % parts }
        ensures ascending { (s : _) (c : _) → IsStrictlySortedBy K.cmp (map (λ e. e.0) (⟦<SortedLocal<K, C> as Parted>⟧.left s c)) }
    {
        SortedLocal {
            entries: Vec::new(alloc),
            faults: Faults::none(),
            alloc,
        }
    }

    // Where the key is, or where it would go.
    fn search(&self, key: &K) -> Result<usize, usize>
        ensures range { IsSearchInRange result (vec_len self.now.entries) }
        ensures found { IfOk result (HoldsAt (λ e. K.cmp e.0 key.now ≡ Equal) self.now.entries.items) }
        ensures absent { IfErr result
            (IsPartitionPoint (λ e. K.cmp e.0 key.now ≡ Less) (λ e. K.cmp e.0 key.now ≡ Greater) self.now.entries.items) }
    {
        self.entries.binary_search_by(
            |e: &(K, C::Cell)| -> Ordering
                ensures { result ≡ K.cmp e.now.0 key.entry.now }
            { e.0.cmp(key) },
        )
    }
}

impl<K: Key, C: Combiner> Local for SortedLocal<K, C> {
    type Key = K;

    type Value = C::Value;

    ghost stands = { λ s es. StandsFor K.cmp (λ _. true) C.unit_of C.merged (λ k. find K.cmp k s.entries.items) (vec_len s.entries)
        (noted_of s.faults) es };

    ghost noted = { λ s. noted_of s.faults };

    ghost cell_count = { λ s. vec_len s.entries };

    ghost same_origin = { λ _ _. Unit {0} };

    ghost same = { λ s t. (t.entries.items ≡ s.entries.items) × (noted_of t.faults ≡ noted_of s.faults) };

    ghost spares = { λ s k. C.fixed && is_some (find K.cmp k s.entries.items) };

    ghost any_order = { λ s es fs p h. any_order K.total K.only_equal_tie (λ _. true) C.laws C.unit_of _ _ _ es fs p h };

    ghost same_refl = { λ _. (refl, refl) };

    ghost same_keeps = { λ s t e.
        let count = t.entries.ok.0 ∙ ap length e.0 ∙ sym s.entries.ok.0 in (
          kept K.cmp (λ _. true) C.unit_of C.merged _ _ _ _ _ _ (λ k. ap (find K.cmp k) e.0) count e.1,
          e.1,
          count,
          λ k. ap (λ es. C.fixed && is_some (find K.cmp k es)) e.0,
        ) };

    ghost origin_refl = { λ _. tt };

    ghost origin_trans = { λ _ _ _ _ _. tt };

    fn emit(&mut self, key: K, value: C::Value) -> Result<(), Memory> {
        match self.search(&key) {
            Ok(at) => {
                let entry = &mut self.entries[at];
                C::add(&mut entry.1, value)
            }
            Err(at) => {
                let cell = C::unit(self.alloc, value)?;
                self.entries.insert(at, (key, cell))?;
                Ok(())
            }
        }
    }

    fn too_large(&mut self, key: K) {
        keep_lesser(&mut self.faults.over, Some(key));
    }

    fn malformed(&mut self, offset: u64) {
        keep_lesser(&mut self.faults.malformed, Some(offset));
    }

    fn cells(&self) -> u64 {
        self.entries.len() as u64
    }

    fn faults(&self) -> &Faults<K> {
        &self.faults
    }
}

impl<K: Key, C: Combiner> Parted for SortedLocal<K, C> {
    ghost use Rattle.std.specs.Prelude.{◌≡◌, ◌==◌, ◌≤◌, ◌%◌, true, drop, filter, is_some, vec_len};
    ghost use Rattle.std.specs.FinMap.{find};
    ghost use Rattle.std.proofs.Common.{sym, ap, subst, ◌∙◌};
    ghost use Rattle.mr_container.specs.Laws.{both_true, never_outside, part_below, part_nests};

    type Fold = C;

    ghost inside = { λ _. true };

    ghost cell = { λ s k. find K.cmp k s.entries.items };

    ghost part_of = { λ parts k. K.hash_of k % parts };

    ghost stands_in = { λ s c. (c.place ≤ vec_len s.entries) × (1 ≤ c.parts) };

    ghost left = { λ s c. filter (λ e. K.hash_of e.0 % c.parts == c.part) (drop c.place s.entries.items) };

    ghost means = { λ s es h. h };

    ghost whole_meaning = { λ s es h. h };

    ghost same_cells = { λ s t e k. ap (find K.cmp k) e.0 };

    ghost same_cursors = { λ s t e c h.
        let count = t.entries.ok.0 ∙ ap length e.0 ∙ sym s.entries.ok.0 in (
          (subst (λ n. c.place ≤ n) (sym count) h.0, h.1),
          ap (λ es. filter (λ e. K.hash_of e.0 % c.parts == c.part) (drop c.place es)) e.0,
        ) };

    ghost spares_present = { λ s k f p. both_true _ _ f p };

    ghost spares_outside = { λ s k e. never_outside e };

    ghost parts_below = { λ parts k h. part_below (K.hash_of k) parts h };

    ghost parts_nest = { λ parts times k h m. part_nests (K.hash_of k) parts times };

    fn cursor(&self, part: u32, parts: u32) -> Cursor {
        Cursor {
            part,
            parts,
            place: 0,
            within: 0,
        }
    }

    fn next(&self, cursor: &mut Cursor) -> Option<(&K, &C::Cell)> {
        while cursor.place < self.entries.len() as u64 {
            let entry = &self.entries[cursor.place as usize];
            cursor.place += 1;
            if entry.0.hash() % cursor.parts as u64 == cursor.part as u64 {
                return Some((&entry.0, &entry.1));
            }
        }
        None
    }
}
