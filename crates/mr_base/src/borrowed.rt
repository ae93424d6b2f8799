ghost use Rattle.std.specs.Prelude.{◌≡◌, ◌≤◌, drop, length, slice_range};
ghost use Rattle.std.specs.FinMap.{slice_cmp-IsAntisymmetric, nat_cmp-IsAntisymmetric};
ghost use Rattle.std.proofs.Common.{rules};
ghost use Rattle.std.specs.Cmp.{partial_order_from_own_ties};
ghost use Rattle.std.specs.Cmp.Rules.{comparing};
ghost use Rattle.std.specs.Cmp.Lexicographic.{slice_cmp};
ghost use Rattle.std.specs.Ordering.{nat_cmp, as_partial_cmp, eq_by_cmp};
ghost use Rattle.mr_items.specs.FaultLines.{shown_text};
ghost use Rattle.mr_base.specs.Hash.{fnv1a_of};
ghost use Rattle.mr_base.specs.Keys.{folded, list_code};
ghost use Rattle.mr_base.specs.Leads.{high, high_orders};

use crate::key::Key;
use crate::lanes::words_in;
use crate::lead::{fnv1a_past, mixed, order_past, rest_of, word_at};
use crate::memory::Memory;
use crate::text::Text;
use std::alloc::Global;
use std::cmp::Ordering;
use std::marker::Model;

/// A key of bytes that are borrowed, in byte order, seen as the list of them, with A to Z turned into a to z where its mark is set. Its
/// hash is `fnv1a` of that list, and it prints that list. A copy takes no memory.
///
/// It keeps its first 16 bytes as two words, and its code and its length beside them, so that keys of up to 16 bytes are compared and
/// looked up without a look at the text.
// The slice comes last: a table reads what stands before it.
#[derive(Drop)]
pub struct SliceKey<'a> {
    // The first eight bytes of the list and the next eight, the earlier the higher, and 0 past its end.
    first: u64,
    second: u64,
    code: u64,
    // The length, or the highest number of 32 bits where it is longer.
    len: u32,
    fold: bool,
    bytes: &'a [u8],
}

impl<'a> Model for SliceKey<'a> {
    ghost use Rattle.std.specs.Prelude.{List, ℕ};
    ghost use Rattle.mr_base.specs.Keys.{folded};
    ghost use Rattle.mr_base.specs.Keys.{IsKept};

    ghost Value = { List ℕ };

    ghost view = { λ k. folded k.fold k.bytes.now };

    ghost invariant = { λ k. IsKept (folded k.fold k.bytes.now) k.first k.second k.code k.len };
}

impl<'a> SliceKey<'a> {
    /// The key of these bytes, with A to Z turned into a to z where that is asked for.
    pub fn of(bytes: &'a [u8], fold: bool) -> SliceKey<'a>
        ensures { result ≡ folded fold bytes.now }
    {
        SliceKey::with_words(
            bytes,
            fold,
            word_at(bytes, fold, 0),
            word_at(bytes, fold, 8),
        )
    }

    /// The key of the bytes of a text between two places, with A to Z turned into a to z where that is asked for. It reads the text past
    /// its bytes, where there is more of it.
    pub fn within(text: &'a [u8], from: usize, to: usize, fold: bool) -> SliceKey<'a>
        requires order { from ≤ to }
        requires inside { to ≤ length text.now }
        ensures { result ≡ folded fold (slice_range text.now from to) }
    {
        let (first, second) = words_in(text, from, to, fold);
        SliceKey::with_words(&text[from..to], fold, first, second)
    }

    // The key of these bytes, whose words these are.
    #[inline(always)]
    fn with_words(bytes: &'a [u8], fold: bool, first: u64, second: u64) -> SliceKey<'a>
        requires first { first ≡ high 8 (folded fold bytes.now) }
        requires second { second ≡ high 8 (drop 8 (folded fold bytes.now)) }
        ensures { result ≡ folded fold bytes.now }
    {
        SliceKey {
            first,
            second,
            code: mixed(first, second, rest_of(bytes, fold)),
            len: bytes.len().min(u32::MAX as usize) as u32,
            fold,
            bytes,
        }
    }
}

impl<'a> PartialEq for SliceKey<'a> {
    ghost eq = { eq_by_cmp (slice_cmp nat_cmp) };

    ghost laws = { Prim.search (comparing, rules) };

    #[inline(always)]
    fn eq(&self, other: &SliceKey<'a>) -> bool {
        let words = (self.first == other.first)
            & (self.second == other.second)
            & (self.len == other.len);
        if !words {
            return false;
        }
        self.len <= 16 || order_past(self.bytes, self.fold, other.bytes, other.fold).is_eq()
    }
}

impl<'a> Eq for SliceKey<'a> {
    ghost laws = { Prim.search (comparing, rules) };
}

impl<'a> PartialOrd for SliceKey<'a> {
    ghost partial_cmp = { as_partial_cmp (slice_cmp nat_cmp) };

    ghost laws = { partial_order_from_own_ties (Prim.search (comparing, rules)) (Prim.search (comparing, rules)) };

    fn partial_cmp(&self, other: &SliceKey<'a>) -> Option<Ordering> {
        Some(self.cmp(other))
    }
}

impl<'a> Ord for SliceKey<'a> {
    ghost cmp = { slice_cmp nat_cmp };

    ghost total = { Prim.search (comparing, rules) };

    ghost matches_partial_cmp = { Prim.search (comparing, rules) };

    ghost matches_eq = { Prim.search (comparing, rules) };

    fn cmp(&self, other: &SliceKey<'a>) -> Ordering {
        if self.first != other.first {
            return self.first.cmp(&other.first);
        }
        if self.second != other.second {
            return self.second.cmp(&other.second);
        }
        if self.len <= 16 || other.len <= 16 {
            return self.len.cmp(&other.len);
        }
        order_past(self.bytes, self.fold, other.bytes, other.fold)
    }
}

impl<'a> Key for SliceKey<'a> {
    ghost use Rattle.std.specs.Prelude.{true};

    ghost allowed = { λ _. Unit {0} };

    ghost copies_free = { true };

    ghost hash_of = { fnv1a_of };

    ghost printed = { λ k. k };

    ghost shown_of = { shown_text };

    ghost code_of = { list_code };

    ghost lead_of = { high 8 };

    ghost only_equal_tie = { slice_cmp-IsAntisymmetric nat_cmp-IsAntisymmetric };

    ghost lead_orders = { high_orders 8 };

    fn hash(&self) -> u64 {
        fnv1a_past(14695981039346656037, self.bytes, self.fold, 0)
    }

    fn code(&self) -> u64 {
        self.code
    }

    fn lead(&self) -> u64 {
        self.first
    }

    fn copy(&self, _alloc: Global) -> Result<SliceKey<'a>, Memory> {
        Ok(SliceKey {
            first: self.first,
            second: self.second,
            code: self.code,
            len: self.len,
            fold: self.fold,
            bytes: self.bytes,
        })
    }

    fn print(&self, text: &mut Text) -> Result<(), Memory> {
        if self.len <= 16 {
            return text.push_words(self.first, self.second, self.len as usize);
        }
        text.push_folded(self.bytes, self.fold)
    }

    fn show(&self, text: &mut Text) -> Result<(), Memory> {
        text.push_shown_folded(self.bytes, self.fold)
    }
}
