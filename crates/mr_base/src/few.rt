ghost use Rattle.std.specs.Prelude.{◌≡◌, ◌+◌, ◌<◌, ◌≤◌, ◌++◌, ◌∷◌, [], length, slice_get, Some, IfOk, OnOk, OnErr, MatchOption};
ghost use Rattle.std.specs.Borrow.{sem};
ghost use Rattle.mr_base.specs.Lending.{LendsItems};

use crate::memory::Memory;
use std::alloc::Global;
use std::marker::Model;

/// A list with room that is taken beforehand, so that `push` takes no memory. It is seen as its items beside a number `spare`, of how many
/// more it has room for.
#[derive(Debug, Drop)]
pub struct Few<T> {
    kept: Vec<T>,
}

impl<T> Model for Few<T> {
    ghost use Rattle.std.specs.Prelude.{◌-◌, vec_len, vec_capacity};
    ghost use Rattle.mr_base.specs.Spare.{Spared};

    ghost Value = { Spared T };

    ghost view = { λ f. record { items = f.kept.items; spare = vec_capacity f.kept - vec_len f.kept } };
}

impl<T: Drop> Few<T> {
    /// The empty list with room for `n` items or more.
    pub fn with_room(alloc: Global, n: u32) -> Result<Few<T>, Memory>
        ensures { IfOk result (λ f. (f.items ≡ []) × (n ≤ f.spare)) }
    {
        let mut kept = Vec::new(alloc);
        kept.reserve(n as usize)?;
        Ok(Few { kept })
    }

    /// Makes room for one item more. After want of memory the list and its room are as before.
    pub fn room(&mut self) -> Result<(), Memory>
        ensures items { self.new.items ≡ self.old.items }
        ensures spare { OnOk result (1 ≤ self.new.spare) }
        ensures grows { self.old.spare ≤ self.new.spare }
        ensures err { OnErr result (self.new ≡ self.old) }
    {
        self.kept.reserve(1)?;
        Ok(())
    }

    /// Puts an item last, into room that is there. Takes no memory.
    pub fn push(&mut self, item: T)
        requires { 1 ≤ self.old.spare }
        ensures items { self.new.items ≡ self.old.items ++ item ∷ [] }
        ensures spare { self.new.spare + 1 ≡ self.old.spare }
    {
        let end = self.kept.len();
        match self.kept.insert(end, item) {
            Ok(()) => (),
            Err(_) => unreachable!(),
        }
    }

    /// Takes the last item. None exactly where the list is empty.
    pub fn pop(&mut self) -> Option<T>
        ensures { MatchOption result ((self.old.items ≡ []) × (self.new ≡ self.old))
            (λ x. (self.old.items ≡ self.new.items ++ x ∷ []) × (self.new.spare ≡ self.old.spare + 1)) }
    {
        self.kept.pop()
    }

    /// How many items there are.
    pub fn len(&self) -> usize
        ensures { result ≡ length self.now.items }
    {
        self.kept.len()
    }

    /// The item at a place, counted from 0.
    pub fn get(&self, place: usize) -> &T
        requires { place < length self.now.items }
        ensures { slice_get self.now.items place ≡ Some result.now }
    {
        &self.kept[place]
    }

    /// The items in their order.
    pub fn as_slice(&self) -> &[T]
        ensures { result.now ≡ self.now.items }
    {
        self.kept.as_slice()
    }

    /// Lends the items in their order; how many there are and the room stay.
    pub fn as_mut_slice(&mut self) -> &mut [T]
        ensures* writes_back { sem 𝓛 (LendsItems T.row self.entry result) }
        ensures value { result.now ≡ self.old.items }
    {
        self.kept.as_mut_slice()
    }
}
