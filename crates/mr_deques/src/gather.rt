//! The views of each deque come together again.
ghost use Rattle.std.specs.Prelude.{◌≡◌, ◌<◌, ◌+◌, [], ◌∷◌, ◌++◌, ℕ, flat_map, length};
ghost use Rattle.mr_base.specs.Tasks.{times, total_of, AreAllGiven};
ghost use Rattle.mr_deques.specs.Passes.{given_to};
ghost use Rattle.mr_deques.specs.Phases.{Joining, Joined};

use crate::deque::{Guest, last, take_back};
use crate::deques::Deques;
use crate::passes::DequePass;

// The last view of the pass, if it is not of its own deque.
fn pop_guest(pass: &mut DequePass) -> Option<Guest>
    requires { 0 < length pass.old.guests.items }
    ensures popped { pass.old.guests.items ≡ pass.new.guests.items ++ result ∷ [] }
    ensures same { (pass.new.number ≡ pass.old.number) × (pass.new.own ≡ pass.old.own) × (pass.new.marked ≡ pass.old.marked) }
{
    let Some(guest) = pass.guests.pop() else {
        unreachable!()
    };
    guest
}

// The view of pass w goes to the owner of deque q.
fn give_back(deques: &Deques, all: &mut [DequePass], w: usize, q: usize)
    requires places { (w < length deques.now.ranges) × (q < length deques.now.ranges) }
    requires joining { Joining deques.now q w all.old }
    ensures joining { Joining deques.now q (w + 1) all.new }
    ensures given { (x : ℕ) → times x (flat_map given_to all.new) ≡ times x (flat_map given_to all.old) }
{
    let Some(guest) = pop_guest(&mut all[w]) else {
        return;
    };
    take_back(&mut all[q].own, guest);
}

// All views of deque q come together in its owner, and one more pop shows that they have all its tasks.
fn gather(deques: &Deques, all: &mut [DequePass], q: usize)
    requires place { q < length deques.now.ranges }
    requires joined { Joined deques.now (q + 1) all.old }
    ensures joined { Joined deques.now q all.new }
    ensures given { (x : ℕ) → times x (flat_map given_to all.new) ≡ times x (flat_map given_to all.old) }
{
    for w in 0..deques.ranges.queues() as usize {
        give_back(deques, all, w, q);
    }
    last(&mut all[q].own);
}

// The deques from the last to the first.
pub(crate) fn gather_all(deques: &Deques, all: &mut [DequePass])
    requires joined { Joined deques.now (length deques.now.ranges) all.old }
    ensures { AreAllGiven (total_of deques.now.ranges) given_to all.old }
{
    let mut q = deques.ranges.queues() as usize;
    while q > 0 {
        q -= 1;
        gather(deques, all, q);
    }
}
