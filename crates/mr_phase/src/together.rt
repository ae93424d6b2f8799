ghost use Rattle.std.specs.Prelude.{◌≡◌, ◌≤◌, List, ℕ, All, IfOk, length, map, flat_map, option_and_then};
ghost use Rattle.std.specs.FinMap.{find};
ghost use Rattle.std.specs.List.{IsDistinct};
ghost use Rattle.std.specs.List.Sorted.{IsPermutation, IsStrictlySortedBy};
ghost use Rattle.std.specs.Ordering.{eq_by_cmp};
ghost use Rattle.mr_defs.specs.Commutative.{joined, joined_by};
ghost use Rattle.mr_defs.specs.Emission.{Emission};
ghost use Rattle.mr_defs.specs.Keyed.{lesser};
ghost use Rattle.mr_defs.specs.Partitions.{concatenated};
ghost use Rattle.mr_combine.specs.Fold.{outcome};
ghost use Rattle.mr_base.specs.Noting.{noted_of};
ghost use Rattle.mr_phase.specs.Partition.{AreReduced};
ghost use Rattle.mr_phase.specs.Spread.{IsSpreadOf, noted_all};

use crate::mapped::Mapped;
use crate::partition::Partition;
use mr_base::{Faults, Few, Key, Memory, Rows, keep_lesser};
use mr_combine::Reducer;
use mr_container::{Local, Parted};
use std::alloc::Global;

/// What a reduction gives: a list of rows for each partition, which ascends by key, and the faults, each the least of its kind.
#[derive(Drop)]
pub struct Reduced<K> {
    pub lists: Few<Rows<K>>,
    pub faults: Faults<K>,
}

// The faults of all hands, each the least of its kind.
fn merge_faults<L: Local>(alloc: Global, mapped: &Mapped<L>) -> Result<Faults<L::Key>, Memory>
    ensures { IfOk result (λ f. noted_of f ≡ noted_all L.Key.cmp (λ h. L.noted h.local) mapped.now) }
{
    let mut faults = Faults::none();
    for hand in mapped.hands.as_slice() {
        let more = hand.local.faults().copy(alloc)?;
        faults.merge(more);
    }
    Ok(faults)
}

// The lists of all partitions, and these faults with the least key over of all.
fn collect<K: Key>(
    alloc: Global,
    partitions: Vec<Partition<K>>,
    faults: Faults<K>,
) -> Result<Reduced<K>, Memory>
    ensures lists { IfOk result (λ r. r.lists.items ≡ map (λ p. p.rows) partitions.items) }
    ensures malformed { IfOk result (λ r. r.faults.malformed ≡ faults.malformed) }
    ensures outside { IfOk result (λ r. r.faults.outside ≡ faults.outside) }
    ensures twice { IfOk result (λ r. r.faults.twice ≡ faults.twice) }
    ensures over { IfOk result
        (λ r. r.faults.over ≡ joined (lesser K.cmp) faults.over (joined_by (lesser K.cmp) (λ p. p.over) partitions.items)) }
{
    let mut lists = Few::with_room(alloc, 1)?;
    let mut noted = faults;
    for partition in partitions {
        let Partition { rows, over, .. } = partition;
        keep_lesser(&mut noted.over, over);
        lists.room()?;
        lists.push(rows);
    }
    Ok(Reduced {
        lists,
        faults: noted,
    })
}

/// Puts the partitions of all hands together, which stand in the order of their numbers.
pub(crate) fn together<L: Parted, R: Reducer<L::Fold>>(
    alloc: Global,
    mapped: &Mapped<L>,
    parts: u32,
    partitions: Vec<Partition<L::Key>>,
) -> Result<Reduced<L::Key>, Memory>
    requires some { 1 ≤ parts }
    requires count { length partitions.items ≡ parts }
    requires each { AreReduced L.Key.cmp (λ k. joined_by L.Fold.merged (λ h. L.cell h.local k) mapped.now)
        (L.part_of parts) L.Fold.over R.answer partitions.items }
    ensures count { IfOk result (λ r. length r.lists.items ≡ parts) }
    ensures ascend { IfOk result (λ r. All (λ list. IsStrictlySortedBy L.Key.cmp (map (λ row. row.0) list)) r.lists.items) }
    ensures differ { IfOk result (λ r. IsDistinct (eq_by_cmp L.Key.cmp) (map (λ row. row.0) (concatenated r.lists.items))) }
    ensures cells { IfOk result
        (λ r. (k : L.Key) → find L.Key.cmp k (concatenated r.lists.items)
        ≡ option_and_then (outcome L.Fold.over R.answer) (joined_by L.Fold.merged (λ h. L.cell h.local k) mapped.now)) }
    ensures tasks { IfOk result (λ r. (pairs : ℕ → List (Emission L.Key L.Value)) (all : List ℕ)
        → All (λ h. L.stands h.local (flat_map pairs h.tasks.items)) mapped.now
        → IsPermutation all (flat_map (λ h. h.tasks.items) mapped.now)
        → IsSpreadOf L.Key.cmp L.inside R.folded r.lists.items (noted_of r.faults) (flat_map pairs all)) }
{
    let faults = merge_faults(alloc, mapped)?;
    let reduced = collect(alloc, partitions, faults)?;
    Ok(reduced)
}
