ghost use Rattle.std.specs.Prelude.{◌≡◌, length, IfOk};
ghost use Rattle.mr_capacity.specs.declared.kinds.QueueKind.TheVariants as kinds;
ghost use Rattle.mr_base.specs.Tasks.{AreAll, AreAllGiven, AreUnused, HaveEnded, total_of};
ghost use Rattle.mr_queues.specs.Passes.{ended, given, number};
ghost use Rattle.mr_queues.specs.Queues.{IsAnyOf, count, kind_of, total};
ghost use Rattle.mr_queues.specs.QueuesLaws.{apart};

use crate::any::{AnyPass, AnyQueues};
use crate::pass::{all_any, all_own};
use mr_base::{Few, Memory, Ranges, TaskQueues};
use mr_capacity::QueueKind;
use mr_claims::Claims;
use mr_deques::Deques;
use mr_phase::Blocks;
use std::alloc::Global;

// Blocks, one for each of these ranges.
fn blocks(alloc: Global, ranges: &Ranges) -> Result<(AnyQueues, Few<AnyPass>), Memory>
    ensures kind { IfOk result (λ r. kind_of r.0 ≡ kinds.Blocks) }
    ensures counts { IfOk result (λ r. (total r.0 ≡ total_of ranges.now) × (count r.0 ≡ length ranges.now)) }
    ensures passes { IfOk result (λ r. AreAll (count r.0) (IsAnyOf r.0) number r.1.items) }
    ensures unused { IfOk result (λ r. AreUnused given ended r.1.items) }
{
    let (queues, passes) = Blocks::open(alloc, ranges)?;
    let passes = all_any(alloc, ranges.queues(), passes)?;
    Ok((AnyQueues::Blocks(queues), passes))
}

// Claimed ranges.
fn claims(alloc: Global, ranges: &Ranges) -> Result<(AnyQueues, Few<AnyPass>), Memory>
    ensures kind { IfOk result (λ r. kind_of r.0 ≡ kinds.Ranges) }
    ensures counts { IfOk result (λ r. (total r.0 ≡ total_of ranges.now) × (count r.0 ≡ length ranges.now)) }
    ensures passes { IfOk result (λ r. AreAll (count r.0) (IsAnyOf r.0) number r.1.items) }
    ensures unused { IfOk result (λ r. AreUnused given ended r.1.items) }
{
    let (queues, passes) = Claims::open(alloc, ranges)?;
    let passes = all_any(alloc, ranges.queues(), passes)?;
    Ok((AnyQueues::Claims(queues), passes))
}

// Stealing deques, filled with these ranges.
fn deques(alloc: Global, ranges: &Ranges) -> Result<(AnyQueues, Few<AnyPass>), Memory>
    ensures kind { IfOk result (λ r. kind_of r.0 ≡ kinds.Deques) }
    ensures counts { IfOk result (λ r. (total r.0 ≡ total_of ranges.now) × (count r.0 ≡ length ranges.now)) }
    ensures passes { IfOk result (λ r. AreAll (count r.0) (IsAnyOf r.0) number r.1.items) }
    ensures unused { IfOk result (λ r. AreUnused given ended r.1.items) }
{
    let (queues, passes) = Deques::open(alloc, ranges)?;
    let passes = all_any(alloc, ranges.queues(), passes)?;
    Ok((AnyQueues::Deques(queues), passes))
}

impl AnyQueues {
    /// Queues of this kind that are filled with these ranges, and one pass per queue, in order, to which no task was given yet.
    pub fn of(
        alloc: Global,
        kind: QueueKind,
        ranges: &Ranges,
    ) -> Result<(AnyQueues, Few<AnyPass>), Memory>
        ensures kind { IfOk result (λ r. kind_of r.0 ≡ kind) }
        ensures counts { IfOk result (λ r. (total r.0 ≡ total_of ranges.now) × (count r.0 ≡ length ranges.now)) }
        ensures passes { IfOk result (λ r. AreAll (count r.0) (IsAnyOf r.0) number r.1.items) }
        ensures unused { IfOk result (λ r. AreUnused given ended r.1.items) }
    {
        match kind {
            QueueKind::Blocks => blocks(alloc, ranges),
            QueueKind::Ranges => claims(alloc, ranges),
            QueueKind::Deques => deques(alloc, ranges),
        }
    }
}

impl TaskQueues for AnyQueues {
    type Pass = AnyPass;

    ghost total = { total };

    ghost count = { count };

    ghost is_of = { IsAnyOf };

    ghost number = { number };

    ghost given = { given };

    ghost ended = { ended };

    /// Opens blocks.
    fn open(alloc: Global, ranges: &Ranges) -> Result<(AnyQueues, Few<AnyPass>), Memory> {
        blocks(alloc, ranges)
    }

    fn take(&self, pass: &mut AnyPass) -> Option<u32> {
        match (self, pass) {
            (AnyQueues::Blocks(queues), AnyPass::Blocks(own, _)) => queues.take(own),
            (AnyQueues::Claims(queues), AnyPass::Claims(own, _)) => queues.take(own),
            (AnyQueues::Deques(queues), AnyPass::Deques(own, _)) => queues.take(own),
            _ => unreachable!(),
        }
    }

    fn finish(self, passes: Few<AnyPass>)
        requires all { AreAll (count self) (IsAnyOf self) number passes.items }
        requires ended { HaveEnded ended passes.items }
        ensures { AreAllGiven (total self) given passes.items }
    {
        match self {
            AnyQueues::Blocks(queues) => queues.finish(all_own(passes)),
            AnyQueues::Claims(queues) => queues.finish(all_own(passes)),
            AnyQueues::Deques(queues) => queues.finish(all_own(passes)),
        }
    }

    ghost apart = { apart };
}
