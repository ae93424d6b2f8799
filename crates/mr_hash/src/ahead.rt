ghost use Rattle.std.specs.Prelude.{◌≡◌, ◌<◌, ◌≤◌, length};

use crate::entry::Entry;
use crate::slots::{place_at, slot_at, tag_at};
use mr_base::Key;

/// No place of an entry.
pub const NOWHERE: u32 = 4294967295;

/// What a key is looked for by, read off it once: its code and its lead.
#[derive(Clone, Copy)]
pub struct Clue {
    pub code: u64,
    pub lead: u64,
}

/// A clue that is still to be read.
pub const NO_CLUE: Clue = Clue { code: 0, lead: 0 };

/// The clues of the pairs of a block.
#[inline(never)]
pub fn read_pairs<K: Key, V>(block: &[(K, V)], clues: &mut [Clue])
    ensures { length clues.new ≡ length clues.old }
{
    for (clue, pair) in clues.iter_mut().zip(block) {
        *clue = Clue {
            code: pair.0.code(),
            lead: pair.0.lead(),
        };
    }
}

/// The clues of the entries of a block that is lent.
#[inline(never)]
pub fn read_lent<K: Key, V>(block: &[(&K, &V)], clues: &mut [Clue])
    ensures { length clues.new ≡ length clues.old }
{
    for (clue, entry) in clues.iter_mut().zip(block) {
        *clue = Clue {
            code: entry.0.code(),
            lead: entry.0.lead(),
        };
    }
}

/// The words of the first slots of the keys with these clues.
#[inline(never)]
pub fn slot_words(index: &[u32], shift: u32, clues: &[Clue], words: &mut [u32])
    requires some { 1 ≤ length index.now }
    requires shift { shift < 64 }
    ensures { length words.new ≡ length words.old }
{
    let size = index.len();
    for (word, clue) in words.iter_mut().zip(clues) {
        *word = index[slot_at(size, shift, clue.code, 0)];
    }
}

/// Of the words of the first slots, the places that they or the second slots tell by the tag.
#[inline(never)]
pub fn near_places(index: &[u32], shift: u32, count: usize, clues: &[Clue], places: &mut [u32])
    requires some { 2 ≤ length index.now }
    requires few { length index.now ≤ 4294967296 }
    requires shift { shift < 64 }
    ensures { length places.new ≡ length places.old }
{
    let size = index.len();
    for (place, clue) in places.iter_mut().zip(clues) {
        let tag = tag_at(size, clue.code);
        let first = place_at(size, tag, *place);
        let second = place_at(size, tag, index[slot_at(size, shift, clue.code, 1)]);
        let near = if first < count { first } else { second };
        *place = near.min(NOWHERE as usize) as u32;
    }
}

/// Leaves the places whose entries have the leads of the keys.
#[inline(never)]
pub fn same_leads<K: Key, W>(entries: &[Entry<K, W>], clues: &[Clue], places: &mut [u32])
    ensures { length places.new ≡ length places.old }
{
    for (place, clue) in places.iter_mut().zip(clues) {
        let at = *place as usize;
        let differs = at < entries.len() && entries[at].key.lead() != clue.lead;
        *place = if differs { NOWHERE } else { *place };
    }
}
