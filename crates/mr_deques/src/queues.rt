ghost use Rattle.std.specs.Prelude.{◌≡◌, ◌≢◌, ◌<◌, ◌≤◌, [], ◌∷◌, ◌++◌, ℕ, true, false, length, IfOk, IfSome, IfNone, IsNone};
ghost use Rattle.std.specs.List.Sorted.{IsPermutation};
ghost use Rattle.mr_base.specs.Tasks.{total_of, AreAll, AreAllGiven, HaveEnded};
ghost use Rattle.mr_deques.specs.Passes.{IsPassOf, number_of, given_to, has_ended, has_mark, HasEndMark};
ghost use Rattle.mr_deques.specs.Phases.{Sharing};

use crate::deque::{Owner, Thief, fill};
use crate::deques::Deques;
use crate::gather::gather_all;
use crate::passes::DequePass;
use crate::share::share_all;
use crate::take::{pop_own, steal_from};
use mr_base::{Few, Memory, Ranges, TaskQueues};
use std::alloc::Global;

// The deque at which pass `number` looks as the step-th, which isn't its own.
fn next_deque(queues: u32, number: u32, step: u32) -> u32
    requires { (number < queues) × (0 < step) × (step < queues) × (queues ≤ 32) }
    ensures { (result < queues) × (result ≢ number) }
{
    let at = number + step;
    if at < queues { at } else { at - queues }
}

fn whole(thieves: Few<Thief>, ranges: Ranges) -> Deques
    requires { (0 < length ranges) × (length ranges ≤ 32) }
    ensures { (result.thieves ≡ thieves) × (result.ranges ≡ ranges) }
{
    Deques { thieves, ranges }
}

fn unused(alloc: Global, own: Owner, number: u32) -> Result<DequePass, Memory>
    ensures made { IfOk result (λ p. (p.own ≡ own) × (p.number ≡ number) × (p.ended ≡ false) × (p.guests.items ≡ [])) }
    ensures unmarked { IfOk result (λ p. (length p.marked ≡ 32) × ((q : ℕ) → has_mark p q ≡ false)) }
{
    Ok(DequePass {
        number,
        own,
        guests: Few::with_room(alloc, 0)?,
        marked: [false; 32],
        ended: false,
    })
}

// All deques, filled, and a pass with the owner of each.
fn fill_all(alloc: Global, ranges: &Ranges) -> Result<(Deques, Few<DequePass>), Memory>
    ensures { IfOk result (λ r. (r.0.ranges ≡ ranges.now) × Sharing r.0 0 0 r.1.items) }
{
    let kept = ranges.copy(alloc)?;
    let queues = ranges.queues();
    let mut thieves = Few::with_room(alloc, queues)?;
    let mut passes = Few::with_room(alloc, queues)?;
    for q in 0..queues {
        let (start, end) = ranges.range(q);
        let owner = fill(alloc, start, end, queues)?;
        thieves.push(owner.stealer()?);
        passes.push(unused(alloc, owner, q)?);
    }
    Ok((whole(thieves, kept), passes))
}

impl TaskQueues for Deques {
    type Pass = DequePass;

    ghost total = { λ d. total_of d.ranges };

    ghost count = { λ d. length d.ranges };

    ghost is_of = { IsPassOf };

    ghost number = { number_of };

    ghost given = { given_to };

    ghost ended = { has_ended };

    fn open(alloc: Global, ranges: &Ranges) -> Result<(Deques, Few<DequePass>), Memory> {
        let (deques, mut passes) = fill_all(alloc, ranges)?;
        share_all(&deques, passes.as_mut_slice())?;
        Ok((deques, passes))
    }

    /// Takes from the pass's own deque until its end mark comes, and then from the others, round their number: from each until a task or an
    /// end mark comes, at most four times. None only where the pass has an end mark of its own deque.
    fn take(&self, pass: &mut DequePass) -> Option<u32>
        requires { IsPassOf self.now pass.old }
        ensures same { IsPassOf self.now pass.new × (number_of pass.new ≡ number_of pass.old) }
        ensures some { IfSome result
            (λ t. (t < total_of self.now.ranges) × IsPermutation (given_to pass.old ++ t ∷ []) (given_to pass.new)
            × (has_ended pass.new ≡ has_ended pass.old)) }
        ensures none { IfNone result ((given_to pass.new ≡ given_to pass.old) × (has_ended pass.new ≡ true)) }
        ensures later { has_ended pass.old ≡ true → IsNone result }
        ensures own_end { IfNone result (HasEndMark pass.new) }
    {
        if pass.ended {
            return None;
        }
        if !pass.marked[pass.number as usize] {
            if let Some(task) = pop_own(self, pass) {
                return Some(task);
            }
        }
        let queues = self.ranges.queues();
        for step in 1..queues {
            let q = next_deque(queues, pass.number, step);
            if let Some(task) = steal_from(self, pass, q) {
                return Some(task);
            }
        }
        pass.ended = true;
        None
    }

    fn finish(self, mut passes: Few<DequePass>)
        requires all { AreAll (length self.ranges) (IsPassOf self) number_of passes.items }
        requires ended { HaveEnded has_ended passes.items }
        ensures { AreAllGiven (total_of self.ranges) given_to passes.items }
    {
        gather_all(&self, passes.as_mut_slice());
    }

    ghost apart = { λ d p is. is.apart };
}
