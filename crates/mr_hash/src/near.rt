ghost use Rattle.std.specs.Prelude.{◌≡◌, ℕ, ◌++◌, ◌∷◌, [], List, Bool, All, take, vec_capacity, OnOk, OnErr, IsOk, IsTrue};
ghost use Rattle.mr_defs.specs.Emission.{Emission, Pair};
ghost use Rattle.mr_container.specs.Block.{block_emissions};

use crate::ahead::NOWHERE;
use mr_base::{Emitted, Key, Memory};

/// What may be told where a key stands: a local, of which this trait says what the pairs of a block need.
pub trait Near {
    type Key: Key;

    type Value: Emitted;

    /// It stands for these emissions, nothing that contracts see has changed, and a pair of this key takes no memory: as of a local.
    ghost stands: { Self → List (Emission Self.Key Self.Value) → Type 0 };

    ghost same: { Self → Self → Type 0 };

    ghost spares: { Self → Self.Key → Bool };

    /// Emits a pair whose key may stand at the place that is near; wherever it does, this is `emit` of a local.
    fn emit_near(&mut self, near: usize, key: Self::Key, value: Self::Value) -> Result<(), Memory>
        requires key { Self.Key.allowed key }
        requires value { Self.Value.allowed value }
        ensures ok { OnOk result
            ((es : List (Emission Self.Key Self.Value)) → stands self.old es → stands self.new (es ++ Pair key value ∷ [])) }
        ensures err { OnErr result (same self.old self.new) }
        ensures no_memory { IsTrue (spares self.old key) → IsOk result }
        ensures spares { (k : Self.Key) → IsTrue (spares self.old k) → IsTrue (spares self.new k) };

    ghost same_keeps: { (s t : Self) → same s t → (es : List (Emission Self.Key Self.Value)) → stands s es → stands t es };
}

/// Emits the pairs of a block in their order, the key of each near the place that stands in its turn among the places.
#[inline(always)]
pub fn emit_all<L: Near>(
    local: &mut L,
    places: &[u32],
    block: &mut Vec<(L::Key, L::Value)>,
) -> Result<(), Memory>
    requires { All (λ p. L.Key.allowed p.0 × L.Value.allowed p.1) block.old.items }
    ensures ok { OnOk result
        ((es : List (Emission L.Key L.Value)) → L.stands local.old es → L.stands local.new (es ++ block_emissions block.old.items)) }
    ensures err { OnErr result ((es : List (Emission L.Key L.Value)) → L.stands local.old es
        → (n : ℕ) × L.stands local.new (es ++ take n (block_emissions block.old.items))) }
    ensures no_memory { All (λ p. IsTrue (L.spares local.old p.0)) block.old.items → IsOk result }
    ensures empty { block.new.items ≡ [] }
    ensures room { vec_capacity block.new ≡ vec_capacity block.old }
{
    let mut nth: usize = 0;
    for (key, value) in block.drain(..) {
        let near = place_of(places, nth);
        nth = nth.wrapping_add(1);
        local.emit_near(near, key, value)?;
    }
    Ok(())
}

/// The place that is near the nth key of a block.
#[inline(always)]
pub fn place_of(places: &[u32], nth: usize) -> usize {
    if nth < places.len() {
        places[nth] as usize
    } else {
        NOWHERE as usize
    }
}
