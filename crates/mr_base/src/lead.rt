ghost use Rattle.std.specs.Prelude.{◌≡◌, ◌<◌, ◌≤◌, drop, get_or, length, IfOk};
ghost use Rattle.std.specs.Cmp.Lexicographic.{slice_cmp};
ghost use Rattle.std.specs.Ordering.{nat_cmp, eq_by_cmp};
ghost use Rattle.mr_base.specs.Hash.{fnv1a_from};
ghost use Rattle.mr_base.specs.Keys.{folded, folded_byte, list_code, mixed, scattered};
ghost use Rattle.mr_base.specs.Leads.{high};

use crate::memory::Memory;
use std::alloc::Global;
use std::cmp::Ordering;

/// A byte, with A to Z turned into a to z where that is asked for.
pub fn folded_byte(byte: u8, fold: bool) -> u8
    ensures { result ≡ folded_byte fold byte }
{
    if fold {
        byte.to_ascii_lowercase()
    } else {
        byte
    }
}

/// A copy of the folded list. It takes its memory at once.
pub fn folded_copy(alloc: Global, bytes: &[u8], fold: bool) -> Result<Vec<u8>, Memory>
    ensures { IfOk result (λ v. v.items ≡ folded fold bytes.now) }
{
    let mut copy = Vec::from_slice(alloc, bytes)?;
    if fold {
        copy.as_mut_slice().make_ascii_lowercase();
    }
    Ok(copy)
}

/// The byte at this place of the folded list, or 0 past its end.
pub fn byte_at(bytes: &[u8], fold: bool, place: usize) -> u8
    ensures { result ≡ get_or (folded fold bytes.now) place 0 }
{
    if place < bytes.len() {
        folded_byte(bytes[place], fold)
    } else {
        0
    }
}

/// Eight bytes of the folded list as one number, the earlier the higher. Those past its end are 0.
pub fn word_at(bytes: &[u8], fold: bool, from: usize) -> u64
    requires { from ≤ 8 }
    ensures { result ≡ high 8 (drop from (folded fold bytes.now)) }
{
    u64::from_be_bytes([
        byte_at(bytes, fold, from),
        byte_at(bytes, fold, from + 1),
        byte_at(bytes, fold, from + 2),
        byte_at(bytes, fold, from + 3),
        byte_at(bytes, fold, from + 4),
        byte_at(bytes, fold, from + 5),
        byte_at(bytes, fold, from + 6),
        byte_at(bytes, fold, from + 7),
    ])
}

/// The FNV-1a hash from this state on, of the folded list from a place on.
pub fn fnv1a_past(start: u64, bytes: &[u8], fold: bool, from: usize) -> u64
    ensures { result ≡ fnv1a_from start (drop from (folded fold bytes.now)) }
{
    let mut state = start;
    for place in from..bytes.len() {
        state = (state ^ folded_byte(bytes[place], fold) as u64).wrapping_mul(1099511628211);
    }
    state
}

/// A number in which each of these bits tells in the high half, and in the low half too.
#[tactic(auto, unfolding(crate::specs::Keys::scattered))]
pub fn scattered(n: u64) -> u64
    ensures { result ≡ scattered n }
{
    let product = n.wrapping_mul(15485863446547995027);
    product ^ (product >> 32)
}

/// The number of three words.
#[tactic(auto, unfolding(crate::specs::Keys::mixed))]
pub fn mixed(first: u64, second: u64, rest: u64) -> u64
    ensures { result ≡ mixed first second rest }
{
    scattered(first ^ second.wrapping_mul(11400714819323198485) ^ rest)
}

/// What a code takes of a folded list beside its first 16 bytes: its length, or the FNV-1a hash of what comes after them from the length
/// on.
#[inline(always)]
pub fn rest_of(bytes: &[u8], fold: bool) -> u64
    ensures { result ≡ fnv1a_from (length bytes.now) (drop 16 (folded fold bytes.now)) }
{
    let length = bytes.len() as u64;
    if length <= 16 {
        return length;
    }
    fnv1a_past(length, bytes, fold, 16)
}

/// The code of a folded list.
#[tactic(auto, unfolding(crate::specs::Keys::list_code))]
pub fn list_code(bytes: &[u8], fold: bool) -> u64
    ensures { result ≡ list_code (folded fold bytes.now) }
{
    mixed(
        word_at(bytes, fold, 0),
        word_at(bytes, fold, 8),
        rest_of(bytes, fold),
    )
}

/// The order of two folded lists from the 17th byte on.
pub fn order_past(a: &[u8], fold_a: bool, b: &[u8], fold_b: bool) -> Ordering
    requires a { 16 ≤ length a.now }
    requires b { 16 ≤ length b.now }
    ensures { result ≡ slice_cmp nat_cmp (drop 16 (folded fold_a a.now)) (drop 16 (folded fold_b b.now)) }
{
    for place in 16..a.len().min(b.len()) {
        let left = folded_byte(a[place], fold_a);
        let right = folded_byte(b[place], fold_b);
        if left != right {
            return left.cmp(&right);
        }
    }
    a.len().cmp(&b.len())
}
