ghost use Rattle.std.specs.Prelude.{◌≡◌, ◌≤◌, Option, length, filter_map, option_map, reverse, IfOk};
ghost use Rattle.mr_base.specs.Spare.{Spared};
ghost use Rattle.mr_queues.specs.Passes.{block_in, claim_in, deque_in};
ghost use Rattle.mr_queues.specs.Rooms.{AreRoomed, HasRoom};
ghost use Rattle.mr_queues.specs.declared.any.AnyPass.{AnyPass};
ghost use Rattle.mr_queues.specs.declared.any.AnyPass.TheVariants as pass;

use crate::any::AnyPass;
use mr_base::{Few, Memory};
use mr_claims::ClaimPass;
use mr_deques::DequePass;
use mr_phase::BlockPass;
use std::alloc::Global;

// The passes of one kind among those of any, each with room for others.
pub(crate) trait Kind: Drop + Sized {
    ghost any: { Self × Spared Self → AnyPass };

    ghost within: { AnyPass → Option (Self × Spared Self) };

    fn into_any(self, room: Few<Self>) -> AnyPass
        ensures { result ≡ any (self, room) };

    // The pass itself, where it is of this kind, and its room.
    fn from_any(pass: AnyPass) -> Option<(Self, Few<Self>)>
        ensures { result ≡ within pass };
}

impl Kind for BlockPass {
    ghost any = { λ r. pass.Blocks r.0 r.1 };

    ghost within = { block_in };

    fn into_any(self, room: Few<BlockPass>) -> AnyPass
        ensures { result ≡ pass.Blocks self room }
    {
        AnyPass::Blocks(self, room)
    }

    fn from_any(pass: AnyPass) -> Option<(BlockPass, Few<BlockPass>)> {
        match pass {
            AnyPass::Blocks(own, room) => Some((own, room)),
            _ => None,
        }
    }
}

impl Kind for ClaimPass {
    ghost any = { λ r. pass.Claims r.0 r.1 };

    ghost within = { claim_in };

    fn into_any(self, room: Few<ClaimPass>) -> AnyPass
        ensures { result ≡ pass.Claims self room }
    {
        AnyPass::Claims(self, room)
    }

    fn from_any(pass: AnyPass) -> Option<(ClaimPass, Few<ClaimPass>)> {
        match pass {
            AnyPass::Claims(own, room) => Some((own, room)),
            _ => None,
        }
    }
}

impl Kind for DequePass {
    ghost any = { λ r. pass.Deques r.0 r.1 };

    ghost within = { deque_in };

    fn into_any(self, room: Few<DequePass>) -> AnyPass
        ensures { result ≡ pass.Deques self room }
    {
        AnyPass::Deques(self, room)
    }

    fn from_any(pass: AnyPass) -> Option<(DequePass, Few<DequePass>)> {
        match pass {
            AnyPass::Deques(own, room) => Some((own, room)),
            _ => None,
        }
    }
}

// The last first.
fn turn<T: Drop>(list: &mut Few<T>)
    ensures items { list.new.items ≡ reverse list.old.items }
    ensures spare { list.new.spare ≡ list.old.spare }
{
    list.as_mut_slice().reverse();
}

/// The passes, of which there are `count` at most, in their order as passes of any kind. The first has room for so many.
pub(crate) fn all_any<P: Kind>(
    alloc: Global,
    count: u32,
    mut passes: Few<P>,
) -> Result<Few<AnyPass>, Memory>
    requires { length passes.items ≤ count }
    ensures { IfOk result (λ all. AreRoomed P.any count passes.items all.items) }
{
    let mut all = Few::with_room(alloc, count)?;
    let mut room = Few::with_room(alloc, count)?;
    turn(&mut passes);
    while let Some(pass) = passes.pop() {
        all.push(pass.into_any(room));
        room = Few::with_room(alloc, 0)?;
    }
    Ok(all)
}

/// The passes that are of this kind, in their order. The first is, and has room for all.
pub(crate) fn all_own<P: Kind>(mut passes: Few<AnyPass>) -> Few<P>
    requires { HasRoom P.within passes.items }
    ensures { result.items ≡ filter_map (λ pass. option_map (λ r. r.0) (P.within pass)) passes.items }
{
    turn(&mut passes);
    let Some(first) = passes.pop() else {
        unreachable!()
    };
    let Some((pass, mut all)) = P::from_any(first) else {
        unreachable!()
    };
    all.push(pass);
    while let Some(pass) = passes.pop() {
        if let Some((own, _)) = P::from_any(pass) {
            all.push(own);
        }
    }
    all
}
