ghost use Rattle.std.specs.Prelude.{◌≡◌, ◌≤◌, List, ℕ, Option, Some, length, slice_range, IfOk, IfSome};
ghost use Rattle.mr_items.specs.FoldLines.{number_key};

use mr_base::{Key, Memory, NumKey, SliceKey, TextKey, read_number};
use std::alloc::Global;

/// Keys that a field is read as, where it is one: a byte key as every field, a number key as a number that is at least 0.
pub(crate) trait FieldKey<'a>: Key {
    ghost of_field: { List ℕ → Option Self };

    /// The key that the bytes of a text between two places are, or None.
    fn read(alloc: Global, text: &'a [u8], from: usize, to: usize) -> Result<Option<Self>, Memory>
        requires order { from ≤ to }
        requires inside { to ≤ length text.now }
        ensures same { IfOk result (λ k. k ≡ of_field (slice_range text.now from to)) }
        ensures allowed { IfOk result (λ k. IfSome k (λ key. Self.allowed key)) };
}

impl<'a> FieldKey<'a> for SliceKey<'a> {
    ghost of_field = { λ t. Some t };

    fn read(
        alloc: Global,
        text: &'a [u8],
        from: usize,
        to: usize,
    ) -> Result<Option<SliceKey<'a>>, Memory> {
        Ok(Some(SliceKey::part_of(alloc, text, from, to, false)?))
    }
}

impl<'a> FieldKey<'a> for NumKey {
    ghost of_field = { number_key };

    fn read(
        _alloc: Global,
        text: &'a [u8],
        from: usize,
        to: usize,
    ) -> Result<Option<NumKey>, Memory> {
        match read_number(&text[from..to]) {
            Some(number) => {
                if number >= 0 {
                    Ok(Some(NumKey(number as u64)))
                } else {
                    Ok(None)
                }
            }
            None => Ok(None),
        }
    }
}
