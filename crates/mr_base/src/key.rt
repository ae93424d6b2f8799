ghost use Rattle.std.specs.Prelude.{◌≡◌, ◌≤◌, ℕ, ◌<◌, Bool, true, false, List, ◌++◌, IfOk, OnOk, OnErr, IsTrue, IsOk, decimal};
ghost use Rattle.std.specs.FinMap.{IsAntisymmetric, slice_cmp-IsAntisymmetric, nat_cmp-IsAntisymmetric};
ghost use Rattle.std.proofs.Common.{rules, refl};
ghost use Rattle.std.specs.Cmp.{partial_order_from_own_ties};
ghost use Rattle.std.specs.Cmp.Rules.{comparing};
ghost use Rattle.std.specs.Cmp.Lexicographic.{slice_cmp};
ghost use Rattle.std.specs.Int.{to_le_bytes, w64};
ghost use Rattle.std.specs.Ordering.{nat_cmp, on, as_partial_cmp, eq_by_cmp};
ghost use Rattle.std.specs.declared.cmp.Ordering.TheVariants.{Less};
ghost use Rattle.mr_defs.specs.Folded.{limit};
ghost use Rattle.mr_items.specs.FaultLines.{shown_text};
ghost use Rattle.mr_base.specs.Hash.{fnv1a_of};
ghost use Rattle.mr_base.specs.Keys.{list_code, scattered};
ghost use Rattle.mr_base.specs.Leads.{high, high_orders, nat_cmp_less};

use crate::lead::{list_code, scattered, word_at};
use crate::memory::Memory;
use crate::text::Text;
use std::alloc::Global;
use std::cmp::Ordering;
use std::marker::Model;

/// Keys in a total order in which only equal keys tie, each with a hash and a printed text.
pub trait Key: Ord + Drop {
    /// The keys that may be emitted.
    ghost allowed: { Self → Type 0 };

    /// Whether a copy takes no memory.
    ghost copies_free: { Bool };

    /// The hash, the bytes that are printed, and what a fault line shows of the key.
    ghost hash_of: { Self → ℕ };

    ghost printed: { Self → List ℕ };

    ghost shown_of: { Self → List ℕ };

    /// The number that tables look the key up by, and one that orders as the keys do wherever two differ.
    ghost code_of: { Self → ℕ };

    ghost lead_of: { Self → ℕ };

    /// The hash; equal keys have one.
    fn hash(&self) -> u64
        ensures { result ≡ hash_of self.now };

    /// The code; equal keys have one.
    fn code(&self) -> u64
        ensures { result ≡ code_of self.now };

    /// The lead; of two that differ the lesser is the lesser key's.
    fn lead(&self) -> u64
        ensures { result ≡ lead_of self.now };

    /// A key that is equal.
    fn copy(&self, alloc: Global) -> Result<Self, Memory>
        ensures same { IfOk result (λ k. k ≡ self.now) }
        ensures no_memory { IsTrue copies_free → IsOk result };

    /// Appends the printed bytes. After want of memory the text is as before.
    fn print(&self, text: &mut Text) -> Result<(), Memory>
        ensures ok { OnOk result (text.new ≡ text.old ++ printed self.now) }
        ensures err { OnErr result (text.new ≡ text.old) };

    /// Appends what a fault line shows of the key. After want of memory the text is as before.
    fn show(&self, text: &mut Text) -> Result<(), Memory>
        ensures ok { OnOk result (text.new ≡ text.old ++ shown_of self.now) }
        ensures err { OnErr result (text.new ≡ text.old) };

    ghost only_equal_tie: { IsAntisymmetric Self.cmp };

    ghost lead_orders: { (a b : Self) → lead_of a < lead_of b → Self.cmp a b ≡ Less };
}

/// A key of bytes in byte order, seen as the list of them. Its hash is `fnv1a` of its bytes, and it prints its bytes.
#[derive(Drop)]
pub struct ByteKey {
    bytes: Vec<u8>,
}

impl Model for ByteKey {
    ghost use Rattle.std.specs.Prelude.{List, ℕ};

    ghost Value = { List ℕ };

    ghost view = { λ k. k.bytes.items };
}

impl ByteKey {
    /// Copies these bytes.
    pub fn of(alloc: Global, bytes: &[u8]) -> Result<ByteKey, Memory>
        ensures { IfOk result (λ k. k ≡ bytes.now) }
    {
        let bytes = Vec::from_slice(alloc, bytes)?;
        Ok(ByteKey { bytes })
    }

    /// The key of bytes that are handed over. Takes no memory.
    pub fn from_vec(bytes: Vec<u8>) -> ByteKey
        ensures { result ≡ bytes.items }
    {
        ByteKey { bytes }
    }

    /// The bytes.
    pub fn as_bytes(&self) -> &[u8]
        ensures { result.now ≡ self.now }
    {
        self.bytes.as_slice()
    }
}

impl PartialEq for ByteKey {
    ghost eq = { eq_by_cmp (slice_cmp nat_cmp) };

    ghost laws = { Prim.search (comparing, rules) };

    fn eq(&self, other: &ByteKey) -> bool {
        self.as_bytes().cmp(other.as_bytes()).is_eq()
    }
}

impl Eq for ByteKey {
    ghost laws = { Prim.search (comparing, rules) };
}

impl PartialOrd for ByteKey {
    ghost partial_cmp = { as_partial_cmp (slice_cmp nat_cmp) };

    ghost laws = { partial_order_from_own_ties (Prim.search (comparing, rules)) (Prim.search (comparing, rules)) };

    fn partial_cmp(&self, other: &ByteKey) -> Option<Ordering> {
        Some(self.cmp(other))
    }
}

impl Ord for ByteKey {
    ghost cmp = { slice_cmp nat_cmp };

    ghost total = { Prim.search (comparing, rules) };

    ghost matches_partial_cmp = { Prim.search (comparing, rules) };

    ghost matches_eq = { Prim.search (comparing, rules) };

    fn cmp(&self, other: &ByteKey) -> Ordering {
        self.as_bytes().cmp(other.as_bytes())
    }
}

impl Key for ByteKey {
    ghost allowed = { λ _. Unit {0} };

    ghost copies_free = { false };

    ghost hash_of = { fnv1a_of };

    ghost printed = { λ k. k };

    ghost shown_of = { shown_text };

    ghost code_of = { list_code };

    ghost lead_of = { high 8 };

    ghost only_equal_tie = { slice_cmp-IsAntisymmetric nat_cmp-IsAntisymmetric };

    ghost lead_orders = { high_orders 8 };

    fn hash(&self) -> u64 {
        fnv1a(self.as_bytes())
    }

    fn code(&self) -> u64 {
        list_code(self.as_bytes(), false)
    }

    fn lead(&self) -> u64 {
        word_at(self.as_bytes(), false, 0)
    }

    fn copy(&self, alloc: Global) -> Result<ByteKey, Memory> {
        ByteKey::of(alloc, self.as_bytes())
    }

    fn print(&self, text: &mut Text) -> Result<(), Memory> {
        text.push(self.as_bytes())
    }

    fn show(&self, text: &mut Text) -> Result<(), Memory> {
        text.push_shown(self.as_bytes())
    }
}

/// A key that is a number in numeric order, seen as that number. Its hash is `fnv1a` of its eight bytes, the lowest first, and it prints in
/// decimal. A copy takes no memory.
#[derive(Clone, Copy, Debug, PartialEq, Eq, PartialOrd, Ord)]
pub struct NumKey(pub u64);

impl Model for NumKey {
    ghost use Rattle.std.specs.Prelude.{ℕ};

    ghost Value = { ℕ };

    ghost view = { λ k. k.0 };

    ghost inverse = { λ n. record { 0 = n } };
}

/// The FNV-1a hash of 64 bits: offset basis 14695981039346656037, prime 1099511628211.
pub fn fnv1a(bytes: &[u8]) -> u64
    ensures { result ≡ fnv1a_of bytes.now }
{
    let mut state: u64 = 14695981039346656037;
    for b in bytes {
        state = (state ^ *b as u64).wrapping_mul(1099511628211);
    }
    state
}

impl Key for NumKey {
    ghost allowed = { λ k. k ≤ limit };

    ghost copies_free = { true };

    ghost hash_of = { λ k. fnv1a_of (to_le_bytes w64 k) };

    ghost printed = { λ k. decimal k };

    ghost shown_of = { λ k. decimal k };

    ghost code_of = { scattered };

    ghost lead_of = { λ k. k };

    ghost only_equal_tie = { nat_cmp-IsAntisymmetric };

    ghost lead_orders = { nat_cmp_less };

    fn hash(&self) -> u64 {
        fnv1a(&self.0.to_le_bytes())
    }

    fn code(&self) -> u64 {
        scattered(self.0)
    }

    fn lead(&self) -> u64 {
        self.0
    }

    fn copy(&self, _alloc: Global) -> Result<NumKey, Memory> {
        Ok(*self)
    }

    fn print(&self, text: &mut Text) -> Result<(), Memory> {
        text.push_number(self.0 as i128)
    }

    fn show(&self, text: &mut Text) -> Result<(), Memory> {
        self.print(text)
    }
}
