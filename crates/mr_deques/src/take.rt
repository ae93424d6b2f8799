//! What a pass does while its worker is at work.
ghost use Rattle.std.specs.Prelude.{◌≡◌, ◌≢◌, ◌<◌, ◌≤◌, ◌∷◌, [], ◌++◌, true, false, IfSome, IfNone, length, slice_index_or};
ghost use Rattle.std.specs.List.Sorted.{IsPermutation};
ghost use Rattle.mr_base.specs.Tasks.{total_of};
ghost use Rattle.mr_deques.specs.Passes.{IsPassOf, given_to, has_mark};

use crate::deque::{pop, steal};
use crate::deques::Deques;
use crate::passes::DequePass;

// Pops the pass's own deque: a task, or None where an end mark came.
pub(crate) fn pop_own(deques: &Deques, pass: &mut DequePass) -> Option<u32>
    requires pass { IsPassOf deques.now pass.old × (pass.old.ended ≡ false) }
    requires unmarked { has_mark pass.old pass.old.number ≡ false }
    ensures same { IsPassOf deques.now pass.new × (pass.new.number ≡ pass.old.number) × (pass.new.ended ≡ false) }
    ensures some { IfSome result (λ t. (t < total_of deques.now.ranges) × IsPermutation (given_to pass.old ++ t ∷ []) (given_to pass.new)) }
    ensures none { IfNone result ((given_to pass.new ≡ given_to pass.old) × (has_mark pass.new pass.new.number ≡ true)) }
{
    let end = deques.ranges.range(pass.number).1;
    let Some(x) = pop(&mut pass.own) else {
        unreachable!()
    };
    if x < end {
        return Some(x);
    }
    pass.marked[pass.number as usize] = true;
    None
}

// Steals once from deque q: a task, or None where an end mark came or it is to try again.
fn steal_once(deques: &Deques, pass: &mut DequePass, q: u32) -> Option<u32>
    requires pass { IsPassOf deques.now pass.old × (pass.old.ended ≡ false) × (has_mark pass.old pass.old.number ≡ true) }
    requires place { (q < length deques.now.ranges) × (q ≢ pass.old.number) × (has_mark pass.old q ≡ false) }
    ensures same { IsPassOf deques.now pass.new × (pass.new.number ≡ pass.old.number) × (pass.new.ended ≡ false)
        × (has_mark pass.new pass.new.number ≡ true) }
    ensures some { IfSome result (λ t. (t < total_of deques.now.ranges) × IsPermutation (given_to pass.old ++ t ∷ []) (given_to pass.new)) }
    ensures none { IfNone result (given_to pass.new ≡ given_to pass.old) }
{
    let end = deques.ranges.range(q).1;
    let thief = deques.thieves.get(q as usize);
    let guests = pass.guests.as_mut_slice();
    let Some(guest) = &mut guests[q as usize] else {
        return None;
    };
    let Some(x) = steal(thief, guest) else {
        return None;
    };
    if x < end {
        return Some(x);
    }
    pass.marked[q as usize] = true;
    None
}

// Steals from deque q until a task or an end mark comes, at most four times.
pub(crate) fn steal_from(deques: &Deques, pass: &mut DequePass, q: u32) -> Option<u32>
    requires pass { IsPassOf deques.now pass.old × (pass.old.ended ≡ false) × (has_mark pass.old pass.old.number ≡ true) }
    requires place { (q < length deques.now.ranges) × (q ≢ pass.old.number) }
    ensures same { IsPassOf deques.now pass.new × (pass.new.number ≡ pass.old.number) × (pass.new.ended ≡ false)
        × (has_mark pass.new pass.new.number ≡ true) }
    ensures some { IfSome result (λ t. (t < total_of deques.now.ranges) × IsPermutation (given_to pass.old ++ t ∷ []) (given_to pass.new)) }
    ensures none { IfNone result (given_to pass.new ≡ given_to pass.old) }
{
    for _ in 0..4 {
        if pass.marked[q as usize] {
            return None;
        }
        if let Some(task) = steal_once(deques, pass, q) {
            return Some(task);
        }
    }
    None
}
