ghost use Rattle.std.specs.Prelude.{◌≡◌, ◌<◌, ◌≤◌, ℕ, List, All, length, flat_map, slice_get, slice_index_or, Some};
ghost use Rattle.mr_defs.specs.Emission.{Emission};
ghost use Rattle.mr_phase.specs.Works.{IsSameHand, AreSameHands};

use crate::hands::Hand;
use mr_base::{Few, Memory};
use mr_combine::Combiner;
use mr_container::Parted;
use std::alloc::Global;
use std::marker::Model;
use std::thread;
use std::thread::Threads;

// So many entries are joined in a table that fits a processor's own cache.
const JOINED_AT_ONCE: u64 = 8192;

// The greatest number of finer parts of a partition.
const MOST_FINER: u64 = 64;

/// The hands of the workers, in the order of their numbers, of one worker in the order in which it had them. It is seen as the list of
/// them.
#[derive(Drop)]
pub struct Mapped<L> {
    pub(crate) hands: Few<Hand<L>>,
}

impl<L> Model for Mapped<L> {
    ghost use Rattle.std.specs.Prelude.{List};
    ghost use Rattle.mr_phase.specs.declared.hands.Hand.{Hand};

    ghost Value = { List (Hand L) };

    ghost view = { λ m. m.hands.items };
}

impl<L: Drop> Mapped<L> {
    /// How many hands there are.
    pub fn len(&self) -> usize
        ensures { result ≡ length self.now }
    {
        self.hands.len()
    }

    /// A hand by its place, counted from 0.
    pub fn hand(&self, worker: usize) -> &Hand<L>
        requires { worker < length self.now }
        ensures { slice_get self.now worker ≡ Some result.now }
    {
        self.hands.get(worker)
    }
}

// Moves hands to a pile, the last first, until it has so many.
fn pile_up<L: Drop>(
    hands: &mut Few<Hand<L>>,
    size: usize,
    pile: &mut Vec<Hand<L>>,
) -> Result<(), Memory>
    ensures { length hands.new.items ≤ length hands.old.items }
{
    while pile.len() < size {
        let Some(hand) = hands.pop() else {
            return Ok(());
        };
        pile.push(hand)?;
    }
    Ok(())
}

impl<L: Drop + Send> Mapped<L> {
    /// Frees the hands, in as many threads where they can be made, each of which has as many hands.
    pub fn free<R: Threads + Sync>(mut self, rt: &R, alloc: Global, threads: u32) {
        let size = self.hands.len().div_ceil(threads.max(1) as usize);
        let mut piles = Vec::new(alloc);
        while let Some(hand) = self.hands.pop() {
            let mut pile = Vec::new(alloc);
            if pile.push(hand).is_err() || pile_up(&mut self.hands, size, &mut pile).is_err() {
                return;
            }
            if piles.push(pile).is_err() {
                return;
            }
        }
        let _freed = thread::map_vec(rt, piles, &|pile: Vec<Hand<L>>| drop(pile));
    }
}

// Arranges each hand, in a thread of its own where one can be made. A hand that finds no memory stays as it was.
fn arrange_hands<R: Threads + Sync, L: Parted + Send>(
    rt: &R,
    alloc: Global,
    parts: u32,
    threads: u32,
    hands: &mut Few<Hand<L>>,
)
where
    L::Key: Send,
    L::Value: Send,
    L::Fold: Send,
    <L::Fold as Combiner>::Cell: Send,
    requires { 1 ≤ parts }
    ensures len { length hands.new.items ≡ length hands.old.items }
    ensures each { (i : ℕ) (d : Hand L) → i < length hands.old.items
        → IsSameHand L.same (slice_index_or hands.old.items i d) (slice_index_or hands.new.items i d) }
{
    let count = threads.max(1) as usize;
    let arrange_one = |_: usize, hand: &mut Hand<L>|
        requires { 1 ≤ parts }
        ensures { IsSameHand L.same hand.old hand.new }
    {
        let _kept = hand.local.arrange(alloc, parts);
    };
    thread::for_each_mut(rt, hands.as_mut_slice(), count, &arrange_one);
}

// What hands stand for stays where nothing changes that contracts see.
fn stands_stay<L: Parted>()
    ensures { (pairs : ℕ → List (Emission L.Key L.Value)) (olds news : List (Hand L)) → AreSameHands L.same olds news
        → All (λ h. L.stands h.local (flat_map pairs h.tasks.items)) olds
        → All (λ h. L.stands h.local (flat_map pairs h.tasks.items)) news }
{}

impl<L: Parted> Mapped<L> {
    // How many entries the hands have together, or the greatest number where that is more.
    fn entries(&self) -> u64 {
        let mut count: u64 = 0;
        for hand in self.hands.as_slice() {
            count = count.saturating_add(hand.cells());
        }
        count
    }

    /// Into how many finer parts each of so many partitions is taken apart when the hands are reduced, from 1 to 64: so many that about 8192
    /// entries are joined at once. 1 where there is nothing to join, and where merging cells takes memory.
    pub(crate) fn finer(&self, partitions: u32) -> u32
        requires { 1 ≤ partitions }
        ensures { (1 ≤ result) × (result ≤ 64) }
    {
        if self.hands.len() <= 1 || !<L::Fold as Combiner>::is_fixed() {
            return 1;
        }
        let finer = self.entries() / partitions as u64 / JOINED_AT_ONCE;
        finer.clamp(1, MOST_FINER) as u32
    }
}

impl<L: Parted + Send> Mapped<L> {
    /// Arranges the keys of each hand by the parts by which those of so many partitions will be reduced, so that no part is read past the
    /// keys of others. Each hand has a thread of its own where one can be made.
    ///
    /// Nothing that contracts see changes. A hand that finds no memory stays as it was, and is read as well, only slower.
    pub fn arrange<R: Threads + Sync>(
        &mut self,
        rt: &R,
        alloc: Global,
        partitions: u32,
        threads: u32,
    )
    where
        L::Key: Send,
        L::Value: Send,
        L::Fold: Send,
        <L::Fold as Combiner>::Cell: Send,
        requires { (1 ≤ partitions) × (partitions ≤ 64) }
        ensures same { AreSameHands L.same self.old self.new }
        ensures tasks { flat_map (λ h. h.tasks.items) self.new ≡ flat_map (λ h. h.tasks.items) self.old }
        ensures stands { (pairs : ℕ → List (Emission L.Key L.Value)) → All (λ h. L.stands h.local (flat_map pairs h.tasks.items)) self.old
            → All (λ h. L.stands h.local (flat_map pairs h.tasks.items)) self.new }
    {
        stands_stay::<L>();
        let parts = partitions * self.finer(partitions);
        arrange_hands(rt, alloc, parts, threads, &mut self.hands);
    }
}
