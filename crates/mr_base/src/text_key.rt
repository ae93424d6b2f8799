ghost use Rattle.std.specs.Prelude.{◌≡◌, ◌≤◌, length, slice_range, IfOk, IsOk, IsTrue, Bool, true, false, List, ℕ};
ghost use Rattle.mr_base.specs.Keys.{folded};

use crate::borrowed::SliceKey;
use crate::key::{ByteKey, Key};
use crate::lead::folded_copy;
use crate::memory::Memory;
use std::alloc::Global;

/// Keys that are made of a stretch of text, which they may borrow.
pub trait TextKey<'a>: Key {
    /// The key that is seen as this list of bytes.
    ghost of_text: { List ℕ → Self };

    /// Whether `part` and `part_of` take no memory.
    ghost parts_free: { Bool };

    /// The key of these bytes, with A to Z turned into a to z where that is asked for.
    fn part(alloc: Global, bytes: &'a [u8], fold: bool) -> Result<Self, Memory>
        ensures same { IfOk result (λ k. k ≡ of_text (folded fold bytes.now)) }
        ensures no_memory { IsTrue parts_free → IsOk result };

    /// The same of the bytes of a text between two places.
    fn part_of(
        alloc: Global,
        text: &'a [u8],
        from: usize,
        to: usize,
        fold: bool,
    ) -> Result<Self, Memory>
        requires order { from ≤ to }
        requires inside { to ≤ length text.now }
        ensures same { IfOk result (λ k. k ≡ of_text (folded fold (slice_range text.now from to))) }
        ensures no_memory { IsTrue parts_free → IsOk result };

    ghost every_allowed: { (t : List ℕ) → Self.allowed (of_text t) };
}

impl<'a> TextKey<'a> for ByteKey {
    ghost of_text = { λ t. t };

    ghost parts_free = { false };

    ghost every_allowed = { λ _. tt };

    fn part(alloc: Global, bytes: &'a [u8], fold: bool) -> Result<ByteKey, Memory> {
        Ok(ByteKey::from_vec(folded_copy(alloc, bytes, fold)?))
    }

    fn part_of(
        alloc: Global,
        text: &'a [u8],
        from: usize,
        to: usize,
        fold: bool,
    ) -> Result<ByteKey, Memory> {
        ByteKey::part(alloc, &text[from..to], fold)
    }
}

impl<'a> TextKey<'a> for SliceKey<'a> {
    ghost of_text = { λ t. t };

    ghost parts_free = { true };

    ghost every_allowed = { λ _. tt };

    fn part(_alloc: Global, bytes: &'a [u8], fold: bool) -> Result<SliceKey<'a>, Memory> {
        Ok(SliceKey::of(bytes, fold))
    }

    fn part_of(
        _alloc: Global,
        text: &'a [u8],
        from: usize,
        to: usize,
        fold: bool,
    ) -> Result<SliceKey<'a>, Memory> {
        Ok(SliceKey::within(text, from, to, fold))
    }
}
