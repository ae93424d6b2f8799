ghost use Rattle.std.specs.Prelude.{◌≡◌, ◌<◌, ◌≤◌, ◌+◌, ◌-◌, ◌*◌, ◌/◌, [], ◌∷◌, ◌++◌, ℕ, true, false, length, IfOk, IfSome, IfNone, IsNone};
ghost use Rattle.std.specs.Prelude.{slice_index, slice_index_or};
ghost use Rattle.std.specs.List.Sorted.{IsPermutation};
ghost use Rattle.mr_base.specs.Tasks.{total_of, start_of, AreAll, AreAllGiven, HaveEnded};
ghost use Rattle.mr_claims.specs.Passes.{IsPassOf, IsNew, HasSeenEnd, number_of, given_to, has_ended, queue_after};

use crate::claims::{ClaimPass, Claims};
use crate::rule::Claiming;
use crate::step::{claim, cut_off, join};
use crate::view::View;
use atomic_table::{Seat, Table};
use mr_base::{Few, Memory, Ranges, TaskQueues};
use std::alloc::Global;

type Words = Table<u8, View, Ranges, Claiming, Global>;

// The queue at which pass `number` looks after `step` others.
fn next_queue(queues: u32, number: u32, step: u32) -> u32
    requires { (number < queues) × (step < queues) × (queues ≤ 32) }
    ensures { (result ≡ queue_after queues number step) × (result < queues) }
{
    let at = number + step;
    if at < queues { at } else { at - queues }
}

// The words at the opening: where each queue begins. Of each eight one is used.
fn opening_words(alloc: Global, ranges: &Ranges) -> Result<Vec<u64>, Memory>
    ensures len { IfOk result (λ v. length v.items ≡ length ranges.now * 8) }
    ensures starts { IfOk result
        (λ v. (k : ℕ) → k < length ranges.now * 8 → slice_index v.items k ≡ start_of (total_of ranges.now) (length ranges.now) (k / 8)) }
{
    let count = ranges.queues() * 8;
    let mut words = Vec::with_capacity(alloc, count as usize)?;
    for k in 0..count {
        words.push_reserved(u64::from(ranges.range(k / 8).0));
    }
    Ok(words)
}

fn whole(table: Words, ranges: Ranges) -> Claims
    requires few { (0 < length ranges) × (length ranges ≤ 32) }
    requires table { (table.shared.table_id.words ≡ length ranges * 8) × (table.shared.table_id.slots ≡ 0) × (table.shared.key ≡ ranges) }
    ensures { (result.table ≡ table) × (result.ranges ≡ ranges) }
{
    Claims { table, ranges }
}

fn unused(seat: Seat<u8, View>, number: u32) -> ClaimPass
    ensures { IsNew seat number result }
{
    ClaimPass {
        seat,
        number,
        seen: [false; 32],
        ended: false,
    }
}

impl Claims {
    // Claims from a queue that this pass has not seen at its end: a task, or None where the queue is there now.
    fn claim_from(&self, pass: &mut ClaimPass, queue: u32) -> Option<u32>
        requires pass { IsPassOf self.now pass.old × (pass.old.ended ≡ false) }
        requires queue { (queue < length self.now.ranges) × (slice_index_or pass.old.seen queue false ≡ false) }
        ensures same { IsPassOf self.now pass.new × (pass.new.number ≡ pass.old.number) × (pass.new.ended ≡ false) }
        ensures some { IfSome result (λ t. (t < total_of self.now.ranges) × (given_to pass.new ≡ given_to pass.old ++ t ∷ [])) }
        ensures none { IfNone result ((given_to pass.new ≡ given_to pass.old) × (slice_index_or pass.new.seen queue false ≡ true)) }
        ensures still { (q : ℕ) → slice_index_or pass.old.seen q false ≡ true → slice_index_or pass.new.seen q false ≡ true }
    {
        let next = claim(&self.table.shared, &mut pass.seat, queue);
        let end = self.ranges.range(queue).1;
        if next < u64::from(end) {
            return Some(next as u32);
        }
        pass.seen[queue as usize] = true;
        None
    }
}

impl TaskQueues for Claims {
    type Pass = ClaimPass;

    ghost total = { λ c. total_of c.ranges };

    ghost count = { λ c. length c.ranges };

    ghost is_of = { IsPassOf };

    ghost number = { number_of };

    ghost given = { given_to };

    ghost ended = { has_ended };

    fn open(alloc: Global, ranges: &Ranges) -> Result<(Claims, Few<ClaimPass>), Memory> {
        let words = opening_words(alloc, ranges)?;
        let queues = ranges.queues();
        let mut passes = Few::with_room(alloc, queues)?;
        let kept = ranges.copy(alloc)?;
        let (table, mut seat) = Words::of_words(alloc, words.as_slice(), &kept)?;
        let claims = whole(table, kept);
        for number in 0..queues - 1 {
            let own = cut_off(&claims.table.shared, &mut seat);
            passes.push(unused(own, number));
        }
        passes.push(unused(seat, queues - 1));
        Ok((claims, passes))
    }

    /// Looks at the pass's own queue and then at the others, round their number, but at none that the pass has seen at its end. None where
    /// it has seen every queue there.
    fn take(&self, pass: &mut ClaimPass) -> Option<u32>
        requires { IsPassOf self.now pass.old }
        ensures same { IsPassOf self.now pass.new × (number_of pass.new ≡ number_of pass.old) }
        ensures some { IfSome result
            (λ t. (t < total_of self.now.ranges) × IsPermutation (given_to pass.old ++ t ∷ []) (given_to pass.new)
            × (has_ended pass.new ≡ has_ended pass.old)) }
        ensures none { IfNone result ((given_to pass.new ≡ given_to pass.old) × (has_ended pass.new ≡ true)) }
        ensures later { has_ended pass.old ≡ true → IsNone result }
        ensures every_end { IfNone result ((q : ℕ) → q < length self.now.ranges → HasSeenEnd pass.new q) }
    {
        if pass.ended {
            return None;
        }
        let queues = self.ranges.queues();
        for step in 0..queues {
            let queue = next_queue(queues, pass.number, step);
            if !pass.seen[queue as usize] {
                if let Some(task) = self.claim_from(pass, queue) {
                    return Some(task);
                }
            }
        }
        pass.ended = true;
        None
    }

    fn finish(self, mut passes: Few<ClaimPass>)
        requires all { AreAll (length self.ranges) (IsPassOf self) number_of passes.items }
        requires ended { HaveEnded has_ended passes.items }
        ensures { AreAllGiven (total_of self.ranges) given_to passes.items }
    {
        let Some(first) = passes.pop() else {
            return;
        };
        let mut seat = first.seat;
        while let Some(next) = passes.pop() {
            join(&self.table.shared, &mut seat, next.seat);
        }
        let Claims { table, .. } = self;
        table.close_with(seat).free();
    }

    ghost apart = { λ c p is. is.apart };
}
