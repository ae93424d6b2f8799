ghost use Rattle.std.specs.Prelude.{◌≤◌, ◌≢◌, ◌++◌, ◌∷◌, [], ℕ, ℤ, negsuc, nat_abs, List, take, flat_map, IfSome, OnOk, OnErr};
ghost use Rattle.std.specs.List.{All};
ghost use Rattle.mr_container.specs.Block.{block_emissions};
ghost use Rattle.mr_defs.specs.Emission.{Emission, Pair};
ghost use Rattle.mr_defs.specs.Folded.{limit};
ghost use Rattle.mr_numeric.specs.Pairs.{pair_of, sum_of};
ghost use Rattle.mr_text.specs.Sent.{Sent, SentSome};

use mr_base::{Memory, NumKey};
use mr_container::Local;

/// Emits pairs of a key and a value, in their order.
#[inline(always)]
pub(crate) fn emit_pairs<L: Local<Key = NumKey, Value = i64>>(
    pairs: &[(u64, i64)],
    out: &mut L,
) -> Result<(), Memory>
    requires keys { All (λ p. p.0 ≤ limit) pairs.now }
    requires values { All (λ p. nat_abs p.1 ≤ limit) pairs.now }
    ensures ok { OnOk result ((es : List (Emission ℕ ℤ)) → L.stands out.old es → L.stands out.new (es ++ flat_map pair_of pairs.now)) }
    ensures err { OnErr result
        ((es : List (Emission ℕ ℤ)) → L.stands out.old es → (n : ℕ) × L.stands out.new (es ++ take n (flat_map pair_of pairs.now))) }
    ensures origin { L.same_origin out.old out.new }
{
    for i in 0..pairs.len() {
        let (key, value) = pairs[i];
        out.emit(NumKey(key), value)?;
    }
    Ok(())
}

/// Emits a sum, or that it is too large.
#[inline(always)]
pub(crate) fn emit_sum<L: Local<Key = NumKey, Value = i64>>(
    key: u64,
    sum: Option<i64>,
    out: &mut L,
) -> Result<(), Memory>
    requires key { key ≤ limit }
    requires sum { IfSome sum (λ z. nat_abs z ≤ limit) }
    ensures ok { OnOk result ((es : List (Emission ℕ ℤ)) → L.stands out.old es → L.stands out.new (es ++ sum_of key sum)) }
    ensures err { OnErr result
        ((es : List (Emission ℕ ℤ)) → L.stands out.old es → (n : ℕ) × L.stands out.new (es ++ take n (sum_of key sum))) }
    ensures origin { L.same_origin out.old out.new }
{
    match sum {
        Some(sum) => emit_pairs(&[(key, sum)], out),
        None => {
            out.too_large(NumKey(key));
            Ok(())
        }
    }
}

/// How many pairs a block waits for.
pub(crate) const BLOCK: usize = 256;

/// Puts a pair into the block, which is handed over first where it is full.
fn put_pair<L: Local<Key = NumKey, Value = i64>>(
    key: u64,
    value: i64,
    block: &mut Vec<(NumKey, i64)>,
    out: &mut L,
) -> Result<(), Memory>
    requires key { key ≤ limit }
    requires value { nat_abs value ≤ limit }
    requires allowed { All (λ p. (p.0 ≤ limit) × (p.1 ≢ negsuc limit)) block.old.items }
    ensures ok { OnOk result (Sent L.stands out.old out.new (block_emissions block.old.items ++ Pair key value ∷ [])
        (block_emissions block.new.items)) }
    ensures err { OnErr result (SentSome L.stands out.old out.new (block_emissions block.old.items ++ Pair key value ∷ [])) }
    ensures allowed { OnOk result (All (λ p. (p.0 ≤ limit) × (p.1 ≢ negsuc limit)) block.new.items) }
    ensures origin { L.same_origin out.old out.new }
{
    if block.len() < BLOCK {
        block.push((NumKey(key), value))?;
        return Ok(());
    }
    out.emit_block(block)?;
    block.push((NumKey(key), value))?;
    Ok(())
}

/// Puts the pair of a sum into the block, or notes a sum that is too large behind those that wait in it.
#[inline(always)]
pub(crate) fn put_sum<L: Local<Key = NumKey, Value = i64>>(
    key: u64,
    sum: Option<i64>,
    block: &mut Vec<(NumKey, i64)>,
    out: &mut L,
) -> Result<(), Memory>
    requires key { key ≤ limit }
    requires sum { IfSome sum (λ z. nat_abs z ≤ limit) }
    requires allowed { All (λ p. (p.0 ≤ limit) × (p.1 ≢ negsuc limit)) block.old.items }
    ensures ok { OnOk result (Sent L.stands out.old out.new (block_emissions block.old.items ++ sum_of key sum)
        (block_emissions block.new.items)) }
    ensures err { OnErr result (SentSome L.stands out.old out.new (block_emissions block.old.items ++ sum_of key sum)) }
    ensures allowed { OnOk result (All (λ p. (p.0 ≤ limit) × (p.1 ≢ negsuc limit)) block.new.items) }
    ensures origin { L.same_origin out.old out.new }
{
    match sum {
        Some(sum) => put_pair(key, sum, block, out),
        None => {
            out.emit_block(block)?;
            out.too_large(NumKey(key));
            Ok(())
        }
    }
}
