ghost use Rattle.std.specs.Prelude.{◌≡◌, None, IfOk};
ghost use Rattle.std.specs.Ordering.{nat_cmp};
ghost use Rattle.mr_defs.specs.Commutative.{joined};
ghost use Rattle.mr_defs.specs.Faulty.{first_of};
ghost use Rattle.mr_defs.specs.Keyed.{lesser};
ghost use Rattle.mr_base.specs.Noting.{noted_of};

use crate::key::Key;
use crate::memory::Memory;
use mr_defs::Fault;
use std::alloc::Global;

/// The least fault of each kind that was noted: the offset of an item without form, a key outside the container, a key that was emitted
/// twice, and a key whose value or fold is over the limit.
#[derive(Debug, Drop)]
pub struct Faults<K> {
    pub malformed: Option<u64>,
    pub outside: Option<K>,
    pub twice: Option<K>,
    pub over: Option<K>,
}

impl<K: Key> Faults<K> {
    /// No fault.
    pub fn none() -> Faults<K>
        ensures malformed { result.malformed ≡ None }
        ensures outside { result.outside ≡ None }
        ensures twice { result.twice ≡ None }
        ensures over { result.over ≡ None }
    {
        Faults {
            malformed: None,
            outside: None,
            twice: None,
            over: None,
        }
    }

    /// Keeps in each field the lesser of the two that are there.
    pub fn merge(&mut self, other: Faults<K>)
        ensures malformed { self.new.malformed ≡ joined (lesser nat_cmp) self.old.malformed other.malformed }
        ensures outside { self.new.outside ≡ joined (lesser K.cmp) self.old.outside other.outside }
        ensures twice { self.new.twice ≡ joined (lesser K.cmp) self.old.twice other.twice }
        ensures over { self.new.over ≡ joined (lesser K.cmp) self.old.over other.over }
    {
        let Faults {
            malformed,
            outside,
            twice,
            over,
        } = other;
        keep_lesser(&mut self.malformed, malformed);
        keep_lesser(&mut self.outside, outside);
        keep_lesser(&mut self.twice, twice);
        keep_lesser(&mut self.over, over);
    }

    /// The first that is there, in the order malformed, outside, twice, over. None exactly where there is none.
    pub fn first(self) -> Option<Fault<K>>
        ensures { result ≡ first_of (noted_of self) }
    {
        let Faults {
            malformed,
            outside,
            twice,
            over,
        } = self;
        match (malformed, outside, twice, over) {
            (Some(offset), _, _, _) => Some(Fault::Malformed(offset)),
            (None, Some(key), _, _) => Some(Fault::Outside(key)),
            (None, None, Some(key), _) => Some(Fault::Twice(key)),
            (None, None, None, Some(key)) => Some(Fault::Over(key)),
            (None, None, None, None) => None,
        }
    }

    /// Faults that are the same.
    pub fn copy(&self, alloc: Global) -> Result<Faults<K>, Memory>
        ensures { IfOk result (λ f. f ≡ self.now) }
    {
        Ok(Faults {
            malformed: self.malformed,
            outside: copy_key(alloc, &self.outside)?,
            twice: copy_key(alloc, &self.twice)?,
            over: copy_key(alloc, &self.over)?,
        })
    }
}

/// Keeps in `into` the lesser of two, or the one that is there.
pub fn keep_lesser<T: Ord + Drop>(into: &mut Option<T>, other: Option<T>)
    ensures { into.new ≡ joined (lesser T.cmp) into.old other }
{
    let Some(other) = other else {
        return;
    };
    match into {
        Some(kept) => {
            if other < *kept {
                *kept = other;
            }
        }
        None => *into = Some(other),
    }
}

fn copy_key<K: Key>(alloc: Global, key: &Option<K>) -> Result<Option<K>, Memory>
    ensures { IfOk result (λ k. k ≡ key.now) }
{
    match key {
        Some(key) => Ok(Some(key.copy(alloc)?)),
        None => Ok(None),
    }
}
