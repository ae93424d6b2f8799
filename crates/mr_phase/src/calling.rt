ghost use Rattle.std.specs.Prelude.{◌≡◌, ◌∷◌, [], List, ℕ, All, IfOk, length, map, flat_map, option_and_then};
ghost use Rattle.std.specs.FinMap.{find};
ghost use Rattle.std.specs.List.Sorted.{IsPermutation, IsStrictlySortedBy};
ghost use Rattle.mr_defs.specs.Commutative.{joined_by};
ghost use Rattle.mr_defs.specs.Emission.{Emission};
ghost use Rattle.mr_defs.specs.Partitions.{concatenated};
ghost use Rattle.mr_combine.specs.Fold.{outcome};
ghost use Rattle.mr_base.specs.Noting.{noted_of};
ghost use Rattle.mr_phase.specs.Spread.{IsSpreadOf};

use crate::mapped::Mapped;
use crate::partition::reduce_read;
use crate::together::{Reduced, together};
use mr_base::Memory;
use mr_combine::Reducer;
use mr_container::Parted;
use std::alloc::Global;

/// Reduces the cells of all hands to one list of rows, on the calling thread: the cells of a key are merged, and a key whose merged cell is
/// not over has a row.
///
/// Where the hands together stand for what some tasks emit, each task once, the list has the rows of that and the faults are its faults,
/// whichever hand has which task.
pub fn gather<L: Parted, R: Reducer<L::Fold>>(
    alloc: Global,
    mapped: &Mapped<L>,
) -> Result<Reduced<L::Key>, Memory>
    ensures count { IfOk result (λ r. length r.lists.items ≡ 1) }
    ensures ascend { IfOk result (λ r. All (λ list. IsStrictlySortedBy L.Key.cmp (map (λ row. row.0) list)) r.lists.items) }
    ensures cells { IfOk result
        (λ r. (k : L.Key) → find L.Key.cmp k (concatenated r.lists.items)
        ≡ option_and_then (outcome L.Fold.over R.answer) (joined_by L.Fold.merged (λ h. L.cell h.local k) mapped.now)) }
    ensures tasks { IfOk result (λ r. (pairs : ℕ → List (Emission L.Key L.Value)) (all : List ℕ)
        → All (λ h. L.stands h.local (flat_map pairs h.tasks.items)) mapped.now
        → IsPermutation all (flat_map (λ h. h.tasks.items) mapped.now)
        → IsSpreadOf L.Key.cmp L.inside R.folded r.lists.items (noted_of r.faults) (flat_map pairs all)) }
{
    // Hands that are not arranged are read once: each finer part would be read past the keys of all others.
    let only = reduce_read::<L, R>(alloc, mapped, 0, 1)?;
    let mut partitions = Vec::new(alloc);
    partitions.push(only)?;
    let reduced = together::<L, R>(alloc, mapped, 1, partitions)?;
    Ok(reduced)
}
