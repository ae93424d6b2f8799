ghost use Rattle.std.specs.Prelude.{◌≡◌, ◌≢◌, ◌-◌, ◌/◌, ◌<◌, ◌≤◌, ◌++◌, ◌∷◌, [], List, All, IfOk, OnOk, IfSome, MatchOption, get_or};
ghost use Rattle.std.specs.Prelude.{◌%◌, length, map};
ghost use Rattle.std.specs.Borrow.{Bor};
ghost use Rattle.std.specs.List.Sorted.{IsPermutation, IsSortedByKey};
ghost use Rattle.std.specs.Ordering.{eq_by_cmp};
ghost use Rattle.mr_phase.specs.Packed.{picked};
ghost use Rattle.mr_phase.specs.Taking.{AreInOrder, AreTaken, IsAhead, left_of, pairs_of};

use crate::order::packed;
use mr_base::{Key, Memory};
use std::alloc::Global;
use std::collections::VecDeque;

// Of so many entries or more the keys are read side by side. A block of few more is put in order by insertion, which is quick where few are
// out of it.
const SIDE_BY_SIDE: usize = 16;

/// Entries, which are taken ascending by key. A block of them is read shortly before they are taken, so that few loads wait for another.
#[derive(Drop)]
pub(crate) struct Ahead<'a, K, C> {
    entries: Vec<(&'a K, &'a C)>,
    // The numbers of the entries, ascending, and how many of those entries were read.
    words: Vec<u64>,
    read: usize,
    // What was read, in order, with the leads of the keys.
    near: VecDeque<(u64, &'a K, &'a C)>,
}

/// Whether two keys are equal, where this is the lead of the second.
pub(crate) fn are_equal<K: Key>(one: &K, lead: u64, other: &K) -> bool
    requires { lead ≡ K.lead_of other.now }
    ensures { result ≡ eq_by_cmp K.cmp one.now other.now }
{
    if one.lead() != lead {
        return false;
    }
    one.cmp(other).is_eq()
}

// Where a block ends that begins at this place: the next number has another front than its last.
fn block_end(words: &[u64], count: u64, start: usize) -> usize
    requires some { 0 < count }
    requires inside { start < length words.now }
    ensures more { start < result }
    ensures inside { result ≤ length words.now }
    ensures apart { result < length words.now → get_or words.now (result - 1) 0 / count ≢ get_or words.now result 0 / count }
{
    let mut end = start + SIDE_BY_SIDE.min(words.len() - start);
    while end < words.len() {
        if words[end - 1] / count != words[end] / count {
            return end;
        }
        end += 1;
    }
    end
}

// The places of the entries of these numbers. A division takes the processor's room for many loads, so these stand in a loop of their own.
#[inline(never)]
fn places_of(alloc: Global, words: &[u64], count: u64) -> Result<Vec<u64>, Memory>
    requires { 0 < count }
    ensures { IfOk result (λ places. places.items ≡ map (λ w. w % count) words.now) }
{
    let mut places = Vec::with_capacity(alloc, words.len())?;
    for word in words {
        places.push(*word % count)?;
    }
    Ok(places)
}

// The entries of these numbers, with the leads of their keys. In its loop no load waits for that of another entry.
#[inline(never)]
fn read_block<'a, K: Key, C>(
    alloc: Global,
    entries: &[(&'a K, &'a C)],
    words: &[u64],
) -> Result<Vec<(u64, &'a K, &'a C)>, Memory>
    requires { 0 < length entries.now }
    ensures leads { IfOk result (λ block. All (λ e. e.0 ≡ K.lead_of e.1.now) block.items) }
    ensures all { IfOk result (λ block. pairs_of block.items ≡ picked entries.now words.now) }
    ensures len { IfOk result (λ block. length block.items ≡ length words.now) }
{
    let places = places_of(alloc, words, entries.len() as u64)?;
    let mut block = Vec::with_capacity(alloc, places.len())?;
    for place in places.as_slice() {
        let entry = entries[*place as usize];
        block.push((entry.0.lead(), entry.0, entry.1))?;
    }
    Ok(block)
}

// The entries of these numbers in order, with the leads of their keys.
fn settled_block<'a, K: Key, C>(
    alloc: Global,
    entries: &[(&'a K, &'a C)],
    words: &[u64],
) -> Result<Vec<(u64, &'a K, &'a C)>, Memory>
    requires { 0 < length entries.now }
    ensures leads { IfOk result (λ block. All (λ e. e.0 ≡ K.lead_of e.1.now) block.items) }
    ensures all { IfOk result (λ block. IsPermutation (picked entries.now words.now) (pairs_of block.items)) }
    ensures rises { IfOk result (λ block. IsSortedByKey (λ e. e.1.now) K.cmp block.items) }
    ensures len { IfOk result (λ block. length block.items ≡ length words.now) }
{
    let mut block = read_block(alloc, entries, words)?;
    block.sort_unstable_by(|one, other| one.1.cmp(other.1));
    Ok(block)
}

impl<'a, K: Key, C> Ahead<'a, K, C> {
    /// The entries, none of them taken.
    pub(crate) fn of(alloc: Global, entries: Vec<(&'a K, &'a C)>) -> Result<Ahead<'a, K, C>, Memory>
        ensures ahead { IfOk result (λ a. IsAhead K.lead_of a) }
        ensures all { IfOk result (λ a. a.entries.items ≡ entries.entry.items) }
        ensures taken { IfOk result (λ a. AreTaken K.cmp [] a) }
    {
        let words = packed(alloc, &entries)?;
        Ok(Ahead {
            entries,
            words,
            read: 0,
            near: VecDeque::new(alloc),
        })
    }

    // Reads a block, where none that was read is left.
    fn look_ahead(&mut self, alloc: Global) -> Result<(), Memory>
        requires ahead { IsAhead K.lead_of self.old }
        requires none { self.old.near.items ≡ [] }
        requires more { self.old.read < length self.old.words.items }
        ensures ahead { OnOk result (IsAhead K.lead_of self.new) }
        ensures some { OnOk result (0 < length self.new.near.items) }
        ensures left { OnOk result (left_of self.new ≡ left_of self.old) }
        ensures all { OnOk result (self.new.entries ≡ self.old.entries) }
        ensures taken { OnOk result ((taken : List (Bor K × Bor C)) → AreTaken K.cmp taken self.old → AreTaken K.cmp taken self.new) }
    {
        let entries = self.entries.as_slice();
        let words = self.words.as_slice();
        let end = block_end(words, entries.len() as u64, self.read);
        let block = settled_block(alloc, entries, &words[self.read..end])?;
        self.near = VecDeque::from_vec(block);
        self.read = end;
        Ok(())
    }

    /// Takes the next entry, with the lead of its key. None exactly where all are taken.
    pub(crate) fn take(&mut self, alloc: Global) -> Result<Option<(u64, &'a K, &'a C)>, Memory>
        requires { IsAhead K.lead_of self.old }
        ensures ahead { IfOk result (λ _. IsAhead K.lead_of self.new) }
        ensures lead { IfOk result (λ r. IfSome r (λ e. e.0 ≡ K.lead_of e.1.now)) }
        ensures left { IfOk result (λ r. IfSome r (λ _. left_of self.new < left_of self.old)) }
        ensures all { IfOk result (λ _. self.new.entries ≡ self.old.entries) }
        ensures taken { IfOk result (λ r. (taken : List (Bor K × Bor C)) → AreTaken K.cmp taken self.old
            → MatchOption r (AreInOrder K.cmp self.old.entries.items taken) (λ e. AreTaken K.cmp (taken ++ (e.1, e.2) ∷ []) self.new)) }
    {
        if let Some(entry) = self.near.pop_front() {
            return Ok(Some(entry));
        }
        if self.read == self.words.as_slice().len() {
            return Ok(None);
        }
        self.look_ahead(alloc)?;
        match self.near.pop_front() {
            Some(entry) => Ok(Some(entry)),
            None => unreachable!(),
        }
    }
}
