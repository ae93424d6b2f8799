ghost use Rattle.std.specs.Prelude.{◌≡◌, ◌<◌, ◌≤◌, ◌+◌, ℕ, length, IfOk, map, vec_len, replicate};
ghost use Rattle.mr_hash.specs.Pairs.{keys_of};
ghost use Rattle.mr_hash.specs.Slots.{slot_of, tag_of, word_of, used, IsFree, Indexed};

use crate::entry::Entry;
use mr_base::{Key, Memory};
use std::alloc::Global;

/// The slot that is tried for a code at this distance, in an index of so many slots: from a first one on, and round.
// The first one is told by the highest bits of the code, which depend on the whole key; a mask keeps it in where the shift leaves more of
// them.
#[inline(always)]
#[tactic(auto, unfolding(crate::specs::Slots::slot_of))]
pub fn slot_at(size: usize, shift: u32, code: u64, distance: usize) -> usize
    requires distance { distance < size }
    requires shift { shift < 64 }
    ensures slot { result ≡ slot_of size shift code distance }
    ensures within { result < size }
{
    let first = (code >> shift) as usize & (size - 1);
    let room = size - first;
    if distance < room {
        first + distance
    } else {
        distance - room
    }
}

/// The tag of a code: the low bits of it that a place in an index of so many slots leaves free.
#[inline(always)]
pub fn tag_at(size: usize, code: u64) -> u64
    requires { size ≤ 4294967296 }
    ensures tag { result ≡ tag_of size code }
    ensures room { result + size ≤ 4294967296 }
{
    code & (4294967296 - size as u64)
}

/// What a slot holds for the place of an entry with this tag.
#[tactic(auto, unfolding(crate::specs::Slots::word_of))]
pub fn word_at(size: usize, tag: u64, place: usize) -> u32
    requires tag { tag + size ≤ 4294967296 }
    requires place { place + 1 < size }
    ensures { (code : ℕ) → tag ≡ tag_of size code → result ≡ word_of size code place }
{
    (tag + place as u64 + 1) as u32
}

/// The place that a word tells where it has this tag; of any other word some number that is no such place.
#[inline(always)]
#[tactic(auto, unfolding(crate::specs::Slots::word_of))]
pub fn place_at(size: usize, tag: u64, word: u32) -> usize
    requires size { size ≤ 4294967296 }
    requires tag { tag < 4294967296 }
    ensures { (code at : ℕ) → tag ≡ tag_of size code → word ≡ word_of size code at → result ≡ at }
{
    (word as u64).wrapping_sub(tag + 1) as usize
}

/// The first slot with nothing that is tried for this code, in an index that is not full.
pub fn free_slot(index: &[u32], shift: u32, code: u64) -> usize
    requires room { used index.now < length index.now }
    requires shift { shift < 64 }
    ensures { IsFree (length index.now) shift index.now code result }
{
    for distance in 0..index.len() {
        let at = slot_at(index.len(), shift, code, distance);
        if index[at] == 0 {
            return at;
        }
    }
    0
}

/// An index of so many slots with nothing.
pub fn empty_index(alloc: Global, size: usize) -> Result<Vec<u32>, Memory>
    ensures items { IfOk result (λ index. index.items ≡ replicate size 0) }
    ensures len { IfOk result (λ index. vec_len index ≡ size) }
{
    let index = vec![in alloc; 0u32; size]?;
    Ok(index)
}

/// An index of these entries, of so many slots.
pub fn indexed<K: Key, V>(
    alloc: Global,
    entries: &[Entry<K, V>],
    size: usize,
    shift: u32,
) -> Result<Vec<u32>, Memory>
    requires room { length entries.now < size }
    requires few { size ≤ 4294967296 }
    requires shift { shift < 64 }
    ensures found { IfOk result (λ index. Indexed size shift index.items (map K.code_of (keys_of entries.now))) }
    ensures len { IfOk result (λ index. vec_len index ≡ size) }
{
    let mut index = empty_index(alloc, size)?;
    let mut at: usize = 0;
    for entry in entries {
        let code = entry.key.code();
        let free = free_slot(&index, shift, code);
        index[free] = word_at(size, tag_at(size, code), at);
        at += 1;
    }
    Ok(index)
}
