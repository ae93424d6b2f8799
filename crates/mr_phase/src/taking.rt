ghost use Rattle.std.specs.Prelude.{◌≡◌, ◌<◌, ◌++◌, ◌∷◌, [], true, length, slice_get, IfSome, IfNone, IsNone};
ghost use Rattle.std.specs.List.Sorted.{IsPermutation};
ghost use Rattle.mr_base.specs.Tasks.{AreAll, AreAllGiven, HaveEnded};
ghost use Rattle.mr_phase.specs.Blocks.{IsBlockOf, block_of, given_of};

use crate::blocks::{BlockPass, Blocks};
use mr_base::{Few, Memory, Ranges, TaskQueues};
use std::alloc::Global;

impl TaskQueues for Blocks {
    type Pass = BlockPass;

    ghost total = { λ q. q.tasks };

    ghost count = { λ q. q.queues };

    ghost is_of = { IsBlockOf };

    ghost number = { λ p. p.number };

    ghost given = { given_of };

    ghost ended = { λ p. p.ended };

    fn open(alloc: Global, ranges: &Ranges) -> Result<(Blocks, Few<BlockPass>), Memory> {
        let queues = ranges.queues();
        let mut passes = Few::with_room(alloc, queues)?;
        for number in 0..queues {
            let (start, end) = ranges.range(number);
            passes.push(BlockPass {
                number,
                start,
                next: start,
                end,
                ended: false,
            });
        }
        Ok((
            Blocks {
                tasks: ranges.total(),
                queues,
            },
            passes,
        ))
    }

    /// The next task of the pass's own queue, in order. None exactly where none is left.
    fn take(&self, pass: &mut BlockPass) -> Option<u32>
        requires { IsBlockOf self.now pass.old }
        ensures same { IsBlockOf self.now pass.new × (pass.new.number ≡ pass.old.number) }
        ensures some { IfSome result
            (λ t. (t < self.now.tasks) × IsPermutation (given_of pass.old ++ t ∷ []) (given_of pass.new)
            × (pass.new.ended ≡ pass.old.ended)) }
        ensures none { IfNone result ((given_of pass.new ≡ given_of pass.old) × (pass.new.ended ≡ true)) }
        ensures later { pass.old.ended ≡ true → IsNone result }
        ensures order { result ≡ slice_get (block_of self.now.tasks self.now.queues pass.old.number) (length (given_of pass.old)) }
    {
        if pass.next == pass.end {
            pass.ended = true;
            return None;
        }
        let task = pass.next;
        pass.next += 1;
        Some(task)
    }

    fn finish(self, passes: Few<BlockPass>)
        requires all { AreAll self.queues (IsBlockOf self) (λ p. p.number) passes.items }
        requires ended { HaveEnded (λ p. p.ended) passes.items }
        ensures { AreAllGiven self.tasks given_of passes.items }
    {
        drop(passes);
    }

    ghost apart = { λ q p is. is.7 };
}
