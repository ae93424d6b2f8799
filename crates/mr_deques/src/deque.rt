//! The steps on one deque, each with what it tells its caller.
ghost use Rattle.std.specs.Prelude.{◌≡◌, ◌≢◌, ◌<◌, ◌≤◌, ◌+◌, ◌-◌, ◌==◌, [], ◌∷◌, ◌++◌, ℕ, List, true, false, IfOk, IsOk, IfSome, IsSomeAnd};
ghost use Rattle.std.specs.Prelude.{MatchOption, MatchResult};
ghost use Rattle.crossbeam_deque.specs.Handles.{view as pass_view, IsPassOf, SamePass, SameWorker, worker_deque, worker_flavor};
ghost use Rattle.crossbeam_deque.specs.Handles.{stealer_deque, stealer_flavor, worker_view, worker_port, worker_index, worker_capacity};
ghost use Rattle.crossbeam_deque.specs.Steals.{MatchSteal};
ghost use Rattle.mr_defs.specs.Tasks.{most_tasks};
ghost use Rattle.mr_deques.specs.Lawful.{view, blank, about, MayTake, Took, HasAll, marks};

use crate::rule::{Begins, Deal, Last, Numbered, Puts, Takes, TasksThenMarks};
use crate::view::View;
use crossbeam_deque::{Pass, Steal, Stealer, Worker};
use std::alloc::{AllocError, Global};
use std::marker::Brand;

pub(crate) type Owner = Worker<u32, Global, View, TasksThenMarks>;

pub(crate) type Thief = Stealer<u32, Global, View, TasksThenMarks>;

pub(crate) type Guest = Pass<u32, View, Global>;

// The owner's pop of a task or an end mark. The deque is never empty then.
pub(crate) fn pop(owner: &mut Owner) -> Option<u32>
    requires flavor { worker_flavor owner.old ≡ 0 }
    requires may { MayTake (worker_view owner.old) }
    ensures same { SameWorker owner.old owner.new }
    ensures took { IsSomeAnd result (λ x. Took (worker_view owner.old) (x ∷ []) (worker_view owner.new)) }
{
    owner.pop_as::<Takes>()
}

// A thief's steal of a task or an end mark, or None where it is to try again.
pub(crate) fn steal(thief: &Thief, guest: &mut Guest) -> Option<u32>
    requires deque { IsPassOf (stealer_deque thief.now) guest.old × (stealer_flavor thief.now ≡ 0) }
    requires may { MayTake (pass_view guest.old) }
    ensures same { SamePass guest.old guest.new }
    ensures took { MatchOption result (pass_view guest.new ≡ pass_view guest.old)
        (λ x. Took (pass_view guest.old) (x ∷ []) (pass_view guest.new)) }
{
    match thief.steal_as::<Takes>(guest) {
        Steal::Success(x) => Some(x),
        Steal::Empty | Steal::Retry => None,
    }
}

// Cuts weight 1 off for a pass that isn't the owner's.
pub(crate) fn cut_off(owner: &mut Owner) -> Guest
    requires { let v = worker_view owner.old in (v.full ≡ true) × (2 ≤ v.weight) × (v.list ≡ []) }
    ensures same { SameWorker owner.old owner.new × (worker_index owner.new ≡ worker_index owner.old)
        × IsPassOf (worker_deque owner.old) result }
    ensures views { let v = worker_view owner.old in
        (worker_view owner.new ≡ view v.about v.pushed (v.weight - 1) v.list true) × (pass_view result ≡ view v.about v.pushed 1 [] true) }
{
    owner.another::<Deal>()
}

// Takes in what the view of another pass has.
pub(crate) fn take_back(owner: &mut Owner, guest: Guest)
    requires deque { IsPassOf (worker_deque owner.old) guest }
    requires full { ((worker_view owner.old).full ≡ true) × (0 < (worker_view owner.old).weight) × ((pass_view guest).full ≡ true) }
    ensures same { SameWorker owner.old owner.new }
    ensures views { let v = worker_view owner.old in let w = pass_view guest in
        worker_view owner.new ≡ view v.about v.pushed (v.weight + w.weight) (v.list ++ w.list) true }
{
    owner.absorb::<Deal>(guest);
}

// One more pop, by the view of the whole weight, which shows that each task came out once.
pub(crate) fn last(owner: &mut Owner) -> Option<u32>
    requires flavor { worker_flavor owner.old ≡ 0 }
    requires all { ((worker_view owner.old).full ≡ true) × ((worker_view owner.old).weight ≡ (worker_view owner.old).about.passes) }
    ensures same { SameWorker owner.old owner.new }
    ensures all { MatchOption result ((worker_view owner.new ≡ worker_view owner.old) × HasAll (worker_view owner.old))
        (λ x. HasAll (worker_view owner.old) × Took (worker_view owner.old) (x ∷ []) (worker_view owner.new)) }
{
    owner.pop_as::<Last>()
}

// The same, where the caller picks which deque it is. There is room for all numbers, so no push is refused.
fn filled<J: Numbered>(
    alloc: Global,
    start: u32,
    end: u32,
    passes: u32,
) -> Result<Owner, AllocError>
    requires about { J.about ≡ about start end passes }
    requires range { (start ≤ end) × (end ≤ most_tasks) × (0 < passes) × (passes ≤ 32) }
    ensures { IfOk result (λ o. (worker_flavor o ≡ 0) × (worker_view o ≡ view (about start end passes) (end + passes) passes [] true)) }
{
    let mut owner = Owner::fifo_as(alloc, (end - start + passes) as usize)?;
    let Ok(()) = owner.push_as::<Begins<J>>(start) else {
        unreachable!()
    };
    for number in start + 1..end + passes {
        let Ok(()) = owner.push_as::<Puts>(number) else {
            unreachable!()
        };
    }
    Ok(owner)
}

// A deque with its tasks and its end marks.
pub(crate) fn fill(alloc: Global, start: u32, end: u32, passes: u32) -> Result<Owner, AllocError>
    requires range { (start ≤ end) × (end ≤ most_tasks) × (0 < passes) × (passes ≤ 32) }
    ensures { IfOk result (λ o. (worker_flavor o ≡ 0) × (worker_view o ≡ view (about start end passes) (end + passes) passes [] true)) }
{
    filled::<Brand>(alloc, start, end, passes)
}
