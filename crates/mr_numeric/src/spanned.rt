ghost use Rattle.std.specs.Prelude.{◌≡◌, ◌<◌, ◌≤◌, ◌-◌, ◌++◌, ℕ, List, length, take, flat_map, slice_index_or, OnOk, OnErr};
ghost use Rattle.std.specs.List.{All, range_with_len};
ghost use Rattle.mr_defs.specs.Emission.{Emission};
ghost use Rattle.mr_defs.specs.Tasks as tasks;
ghost use Rattle.mr_split.specs.Pieces.{AreSpans, IsSpan};

use mr_base::{Emitted, Memory, NumKey};
use mr_container::{Local, Mapper};
use mr_split::Spans;
use std::alloc::Global;

/// Numbered items, and what each of them emits.
pub trait Items: Drop {
    type Value: Emitted;

    /// How many items there are.
    ghost count: { Self → ℕ };

    /// What an item emits, in its order.
    ghost emits: { Self → ℕ → List (Emission ℕ Self.Value) };

    /// Emits what the item has, in its order. After `Memory` a first part of that was emitted.
    fn emit_item<L: Local<Key = NumKey, Value = Self::Value>>(
        &self,
        alloc: Global,
        item: u64,
        out: &mut L,
    ) -> Result<(), Memory>
        requires { item < count self.now }
        ensures ok { OnOk result
            ((es : List (Emission ℕ Self.Value)) → L.stands out.old es → L.stands out.new (es ++ emits self.now item)) }
        ensures err { OnErr result
            ((es : List (Emission ℕ Self.Value)) → L.stands out.old es → (n : ℕ) × L.stands out.new (es ++ take n (emits self.now item))) }
        ensures origin { L.same_origin out.old out.new };

    /// Emits what the items from one number up to another have, in their order. After `Memory` a first part of that was emitted.
    ///
    /// A job whose keys are seldom emitted twice may gather pairs into blocks here.
    fn emit_items<L: Local<Key = NumKey, Value = Self::Value>>(
        &self,
        alloc: Global,
        from: u64,
        to: u64,
        out: &mut L,
    ) -> Result<(), Memory>
        requires order { from ≤ to }
        requires inside { to ≤ count self.now }
        ensures ok { OnOk result ((es : List (Emission ℕ Self.Value)) → L.stands out.old es
            → L.stands out.new (es ++ flat_map (emits self.now) (range_with_len from (to - from)))) }
        ensures err { OnErr result ((es : List (Emission ℕ Self.Value)) → L.stands out.old es
            → (n : ℕ) × L.stands out.new (es ++ take n (flat_map (emits self.now) (range_with_len from (to - from))))) }
        ensures origin { L.same_origin out.old out.new }
    {
        for item in from..to {
            self.emit_item(alloc, item, out)?;
        }
        Ok(())
    }
}

/// A job over numbered items: a task is a span of them, and emits what its items emit, in their order.
#[derive(Drop)]
pub struct Spanned<I: Items> {
    items: I,
    spans: Spans,
    ghost are: { All (IsSpan (I.count items)) spans },
}

impl<I: Items> Spanned<I> {
    /// The job over these items, cut into these spans. Takes no memory.
    pub fn over(items: I, spans: Spans) -> Spanned<I>
        requires { AreSpans (I.count items) spans }
        ensures count { ⟦<Spanned<I> as Mapper>⟧.task_count result ≡ length spans }
        ensures tasks { (t : ℕ) → ⟦<Spanned<I> as Mapper>⟧.task_emissions result t
            ≡ tasks.task_emissions (I.emits items) (range_with_len 0 (I.count items)) (slice_index_or spans t (0, 0)) }
        ensures whole { flat_map (⟦<Spanned<I> as Mapper>⟧.task_emissions result)
            (range_with_len 0 (⟦<Spanned<I> as Mapper>⟧.task_count result)) ≡ flat_map (I.emits items) (range_with_len 0 (I.count items)) }
    {
        Spanned { items, spans }
    }
}

impl<I: Items> Mapper for Spanned<I> {
    type Key = NumKey;

    type Value = I::Value;

    ghost task_count = { λ m. length m.spans };

    ghost task_emissions = { λ m t. tasks.task_emissions (I.emits m.items) (range_with_len 0 (I.count m.items))
        (slice_index_or m.spans t (0, 0)) };

    fn tasks(&self) -> u32 {
        self.spans.len()
    }

    fn map<L: Local<Key = NumKey, Value = I::Value>>(
        &self,
        alloc: Global,
        task: u32,
        out: &mut L,
    ) -> Result<(), Memory> {
        let span = self.spans.get(task);
        self.items.emit_items(alloc, span.start, span.end, out)
    }
}
