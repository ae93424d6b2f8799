ghost use Rattle.std.specs.Prelude.{◌≡◌, ℕ, ◌<◌, ◌≤◌, ◌*◌, ◌%◌, ◌∷◌, [], List, Bool, true, false, is_some, Option, MatchOption};
ghost use Rattle.mr_defs.specs.Emission.{Emission};
ghost use Rattle.mr_defs.specs.Stands.{StandsFor};
ghost use Rattle.mr_container.specs.Partition.{IsPartition};
ghost use Rattle.mr_container.specs.declared.cursor.Cursor.{Cursor};

use crate::cursor::Cursor;
use crate::local::Local;
use mr_base::Memory;
use mr_combine::Combiner;
use std::alloc::Global;

/// A local whose keys and cells are read partition by partition.
///
/// Each key has one partition, its part of so many parts, and all locals of a type agree on it; finer partitions lie within those that they
/// are finer than. `Fold` is the combiner of the cells.
pub trait Parted: Local {
    type Fold: Combiner<Value = Self::Value>;

    /// The keys that the container has a place for.
    ghost inside: { Self.Key → Bool };

    ghost cell: { Self → Self.Key → Option Self.Fold.Cell };

    /// The number of a key's partition, of so many.
    ghost part_of: { ℕ → Self.Key → ℕ };

    /// The cursor is one of this local.
    ghost stands_in: { Self → Cursor → Type 0 };

    /// The keys and cells that are ahead of a cursor.
    ghost left: { Self → Cursor → List (Self.Key × Self.Fold.Cell) };

    /// Arranges the keys by partition, for the number of partitions by which they will be read, so that a cursor passes over no other
    /// partition's keys. Nothing that contracts see changes, and cursors serve as well without it.
    ///
    /// By default it does nothing. For a container that has many keys, so that many partitions are read in little more time than one.
    fn arrange(&mut self, _alloc: Global, _parts: u32) -> Result<(), Memory>
        requires { 1 ≤ _parts }
        ensures same { Self.same self.old self.new }
        ensures origin { Self.same_origin self.old self.new }
    {
        Ok(())
    }

    /// A cursor at the beginning of a partition, of so many.
    fn cursor(&self, part: u32, parts: u32) -> Cursor
        requires some { 1 ≤ parts }
        requires part { part < parts }
        ensures stands { stands_in self.now result }
        ensures all { IsPartition Self.Key.cmp (cell self.now) (part_of parts) part (left self.now result) };

    /// The next key of the cursor's partition with its cell, or None exactly where none is left.
    fn next(&self, cursor: &mut Cursor) -> Option<(&Self::Key, &<Self::Fold as Combiner>::Cell)>
        requires { stands_in self.now cursor.old }
        ensures stands { stands_in self.now cursor.new }
        ensures entry { MatchOption result ((left self.now cursor.old ≡ []) × (left self.now cursor.new ≡ []))
            (λ e. left self.now cursor.old ≡ (e.0.now, e.1.now) ∷ left self.now cursor.new) };

    ghost means: { (s : Self) (es : List (Emission Self.Key Self.Value)) → Self.stands s es
        → StandsFor Self.Key.cmp inside Self.Fold.unit_of Self.Fold.merged (cell s) (Self.cell_count s) (Self.noted s) es };

    ghost whole_meaning: { (s : Self) (es : List (Emission Self.Key Self.Value))
        → StandsFor Self.Key.cmp inside Self.Fold.unit_of Self.Fold.merged (cell s) (Self.cell_count s) (Self.noted s) es
        → Self.stands s es };

    ghost same_cells: { (s t : Self) → Self.same s t → (k : Self.Key) → cell t k ≡ cell s k };

    ghost same_cursors: { (s t : Self) → Self.same s t → (c : Cursor) → stands_in s c → stands_in t c × (left t c ≡ left s c) };

    ghost spares_present: { (s : Self) (k : Self.Key) → Self.Fold.fixed ≡ true → is_some (cell s k) ≡ true → Self.spares s k ≡ true };

    ghost spares_outside: { (s : Self) (k : Self.Key) → inside k ≡ false → Self.spares s k ≡ true };

    ghost parts_below: { (parts : ℕ) (k : Self.Key) → 1 ≤ parts → part_of parts k < parts };

    /// Of so many times as many partitions, those that are equal modulo a number of partitions are together one of these.
    ghost parts_nest: { (parts times : ℕ) (k : Self.Key) → 1 ≤ parts → 1 ≤ times → part_of (parts * times) k % parts ≡ part_of parts k };
}
