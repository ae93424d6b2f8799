ghost use Rattle.std.specs.Prelude.{◌≡◌, ℕ, ◌++◌, ◌∷◌, [], List, All, Bool, true, false, take, vec_capacity, IfNone, IfOk, IfSome, OnOk, OnErr};
ghost use Rattle.std.specs.Prelude.{IsOk, IsTrue};
ghost use Rattle.std.specs.List.Sorted.{IsPermutation};
ghost use Rattle.mr_defs.specs.Emission.{Emission, Pair, TooLarge, Malformed};
ghost use Rattle.mr_defs.specs.Faulty.{Noted};
ghost use Rattle.mr_base.specs.Noting.{noted_of};
ghost use Rattle.mr_container.specs.Block.{block_emissions, run_emissions};

use mr_base::{Emitted, Faults, Key, Memory};
use mr_combine::Run;
use std::alloc::Global;

/// The container of one worker: the pairs that its tasks emit are combined here, key by key.
///
/// Contracts say for which list of emissions a local stands. A key that the container has no place for is outside: it is noted and has
/// no cell.
pub trait Local: Drop {
    type Key: Key;

    type Value: Emitted;

    /// It stands for these emissions.
    ghost stands: { Self → List (Emission Self.Key Self.Value) → Type 0 };

    ghost noted: { Self → Noted Self.Key };

    ghost cell_count: { Self → ℕ };

    /// Both come from the same place, where the container has one.
    ghost same_origin: { Self → Self → Type 0 };

    /// Nothing that contracts see has changed.
    ghost same: { Self → Self → Type 0 };

    /// A pair of this key takes no memory.
    ghost spares: { Self → Self.Key → Bool };

    /// Combines the value into the cell of its key, or notes the key where it is outside.
    ///
    /// After `Memory` nothing has changed. A key outside is no error, and takes no memory.
    fn emit(&mut self, key: Self::Key, value: Self::Value) -> Result<(), Memory>
        requires key { Self.Key.allowed key }
        requires value { Self.Value.allowed value }
        ensures ok { OnOk result
            ((es : List (Emission Self.Key Self.Value)) → stands self.old es → stands self.new (es ++ Pair key value ∷ [])) }
        ensures err { OnErr result (same self.old self.new) }
        ensures no_memory { IsTrue (spares self.old key) → IsOk result }
        ensures spares { (k : Self.Key) → IsTrue (spares self.old k) → IsTrue (spares self.new k) }
        ensures origin { same_origin self.old self.new };

    /// Emits the pairs of a block in their order, and leaves the block empty; its room stays.
    ///
    /// A container may look for the places of all the block's keys before it goes to any of them, so that their loads run side by side:
    /// a mapper fills a block of some hundred pairs and hands it over. After `Memory` the pairs of a front of the block were emitted.
    fn emit_block(&mut self, block: &mut Vec<(Self::Key, Self::Value)>) -> Result<(), Memory>
        requires { All (λ p. Self.Key.allowed p.0 × Self.Value.allowed p.1) block.old.items }
        ensures ok { OnOk result
            ((es : List (Emission Self.Key Self.Value)) → stands self.old es → stands self.new (es ++ block_emissions block.old.items)) }
        ensures err { OnErr result ((es : List (Emission Self.Key Self.Value)) → stands self.old es
            → (n : ℕ) × stands self.new (es ++ take n (block_emissions block.old.items))) }
        ensures no_memory { All (λ p. IsTrue (spares self.old p.0)) block.old.items → IsOk result }
        ensures empty { block.new.items ≡ [] }
        ensures room { vec_capacity block.new ≡ vec_capacity block.old }
        ensures origin { same_origin self.old self.new }
    {
        for (key, value) in block.drain(..) {
            self.emit(key, value)?;
        }
        Ok(())
    }

    /// Combines the values of a run into the cell of the key, and answers true; or answers false, and nothing has changed.
    ///
    /// A container that can go to the cell of a key once for all values does so here. After `Memory` those of a front of the run were
    /// combined.
    fn add_run<R: Run<Value = Self::Value>>(
        &mut self,
        _key: &Self::Key,
        _run: &R,
    ) -> Result<bool, Memory>
        requires { Self.Key.allowed _key.now }
        ensures added { IfOk result (λ added. added ≡ true → (es : List (Emission Self.Key Self.Value)) → stands self.old es
            → stands self.new (es ++ run_emissions _key.now (R.values _run.now))) }
        ensures unchanged { IfOk result (λ added. added ≡ false → same self.old self.new) }
        ensures err { OnErr result ((es : List (Emission Self.Key Self.Value)) → stands self.old es
            → (n : ℕ) × stands self.new (es ++ take n (run_emissions _key.now (R.values _run.now)))) }
        ensures no_memory { IsTrue (spares self.old _key.now) → IsOk result }
        ensures spares { (k : Self.Key) → IsTrue (spares self.old k) → IsTrue (spares self.new k) }
        ensures origin { same_origin self.old self.new }
    {
        Ok(false)
    }

    /// Emits the pairs of a key with the values of a run, in their order. After `Memory` the pairs of a front of the run were emitted.
    final fn emit_run<R: Run<Value = Self::Value>>(
        &mut self,
        alloc: Global,
        key: &Self::Key,
        run: &R,
    ) -> Result<(), Memory>
        requires { Self.Key.allowed key.now }
        ensures ok { OnOk result ((es : List (Emission Self.Key Self.Value)) → stands self.old es
            → stands self.new (es ++ run_emissions key.now (R.values run.now))) }
        ensures err { OnErr result ((es : List (Emission Self.Key Self.Value)) → stands self.old es
            → (n : ℕ) × stands self.new (es ++ take n (run_emissions key.now (R.values run.now)))) }
        ensures no_memory { IsTrue Self.Key.copies_free → IsTrue (spares self.old key.now) → IsOk result }
        ensures spares { (k : Self.Key) → IsTrue (spares self.old k) → IsTrue (spares self.new k) }
        ensures origin { same_origin self.old self.new }
    {
        if self.add_run(key, run)? {
            return Ok(());
        }
        for i in 0..run.len() {
            let copied = key.copy(alloc)?;
            self.emit(copied, run.value(i))?;
        }
        Ok(())
    }

    /// Whether no pair of any key takes memory from now on, as far as the container can tell.
    fn spares_all(&self) -> bool
        ensures { result ≡ true → (k : Self.Key) → IsTrue (spares self.now k) }
    {
        false
    }

    /// Gives what is inside away as a local of its own and goes on with no cell, where the container has grown large and few of its pairs
    /// share a key; or answers None, and nothing has changed. By default it never gives.
    ///
    /// For a worker that combines few of its pairs: tables that stay small are quick to emit into, and whoever reduces merges them.
    fn spill(&mut self, _alloc: Global) -> Result<Option<Self>, Memory>
        ensures given { IfOk result (λ r. IfSome r (λ given. (es : List (Emission Self.Key Self.Value)) → stands self.old es
            → stands given es × stands self.new [])) }
        ensures kept { IfOk result (λ r. IfNone r (same self.old self.new)) }
        ensures err { OnErr result (same self.old self.new) }
        ensures origin { same_origin self.old self.new }
    {
        Ok(None)
    }

    /// Notes that the key has a value which is too large. Takes no memory.
    fn too_large(&mut self, key: Self::Key)
        requires { Self.Key.allowed key }
        ensures stands { (es : List (Emission Self.Key Self.Value)) → stands self.old es → stands self.new (es ++ TooLarge key ∷ []) }
        ensures origin { same_origin self.old self.new };

    /// Notes an item without form, at this offset in bytes of the whole input. Takes no memory.
    fn malformed(&mut self, offset: u64)
        ensures stands { (es : List (Emission Self.Key Self.Value)) → stands self.old es → stands self.new (es ++ Malformed offset ∷ []) }
        ensures origin { same_origin self.old self.new };

    /// The number of keys with a cell.
    fn cells(&self) -> u64
        ensures { result ≡ cell_count self.now };

    /// The faults that were noted, each the least of its kind.
    fn faults(&self) -> &Faults<Self::Key>
        ensures { noted_of result.now ≡ noted self.now };

    ghost any_order: { (s : Self) (es fs : List (Emission Self.Key Self.Value)) → IsPermutation es fs → stands s es → stands s fs };

    ghost same_refl: { (s : Self) → same s s };

    ghost same_keeps: { (s t : Self) → same s t
        → ((es : List (Emission Self.Key Self.Value)) → stands s es → stands t es)
        × (noted t ≡ noted s) × (cell_count t ≡ cell_count s) × ((k : Self.Key) → spares t k ≡ spares s k) };

    ghost origin_refl: { (s : Self) → same_origin s s };

    ghost origin_trans: { (s t u : Self) → same_origin s t → same_origin t u → same_origin s u };
}
