ghost use Rattle.std.specs.Prelude.{◌≡◌, ◌≤◌, ◌<◌, ◌++◌, ◌∷◌, [], ℕ, Bool, true, List, length, IfOk, IfSome, IfNone, IsNone};
ghost use Rattle.std.specs.List.Sorted.{IsPermutation};
ghost use Rattle.mr_base.specs.Tasks.{total_of, AreAll, AreAllGiven, AreUnused, HaveEnded, IsApartBelow};

use crate::few::Few;
use crate::memory::Memory;
use crate::ranges::Ranges;
use std::alloc::Global;

/// Queues of tasks, one for each worker, from which workers on several threads take. What a worker does goes by its pass: the pass has a
/// number, the tasks that it was given, in no stated order, and whether it has answered None.
pub trait TaskQueues: Sized {
    type Pass: Send + Drop;

    // How many tasks there are in all.
    ghost total: { Self → ℕ };

    // How many queues and passes.
    ghost count: { Self → ℕ };

    // The pass is one of these queues.
    ghost is_of: { Self → Self.Pass → Type 0 };

    ghost number: { Self.Pass → ℕ };

    ghost given: { Self.Pass → List ℕ };

    ghost ended: { Self.Pass → Bool };

    /// Fills the queues, and gives one pass per queue, in order, to which no task was given yet.
    fn open(alloc: Global, ranges: &Ranges) -> Result<(Self, Few<Self::Pass>), Memory>
        ensures counts { IfOk result (λ r. (total r.0 ≡ total_of ranges.now) × (count r.0 ≡ length ranges.now)) }
        ensures passes { IfOk result (λ r. AreAll (count r.0) (is_of r.0) number r.1.items) }
        ensures unused { IfOk result (λ r. AreUnused given ended r.1.items) };

    /// A task that no pass was given before. None where this pass saw its own queue with no task left; each kind of queue says when that
    /// is. Takes no memory and waits for nobody.
    fn take(&self, pass: &mut Self::Pass) -> Option<u32>
        requires { is_of self.now pass.old }
        ensures same { is_of self.now pass.new × (number pass.new ≡ number pass.old) }
        ensures some { IfSome result
            (λ t. (t < total self.now) × IsPermutation (given pass.old ++ t ∷ []) (given pass.new) × (ended pass.new ≡ ended pass.old)) }
        ensures none { IfNone result ((given pass.new ≡ given pass.old) × (ended pass.new ≡ true)) }
        ensures later { ended pass.old ≡ true → IsNone result };

    /// Ends the queues, once all passes have answered None: together the passes were given each task once. Takes no memory.
    fn finish(self, passes: Few<Self::Pass>)
        requires all { AreAll (count self) (is_of self) number passes.items }
        requires ended { HaveEnded ended passes.items }
        ensures { AreAllGiven (total self) given passes.items };

    // The tasks that a pass was given differ, and there is no other task.
    ghost apart: { (q : Self) (p : Self.Pass) → is_of q p → IsApartBelow (total q) (given p) };
}
