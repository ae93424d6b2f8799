use mr_base::Few;
use mr_claims::{ClaimPass, Claims};
use mr_deques::{DequePass, Deques};
use mr_phase::{BlockPass, Blocks};

/// Queues of one kind.
#[derive(Drop)]
pub enum AnyQueues {
    Blocks(Blocks),
    Claims(Claims),
    Deques(Deques),
}

/// A pass of queues of one kind, and room for passes: where it is the first one, for all of these queues, so that they are handed back
/// without memory.
#[derive(Drop)]
pub enum AnyPass {
    Blocks(BlockPass, Few<BlockPass>),
    Claims(ClaimPass, Few<ClaimPass>),
    Deques(DequePass, Few<DequePass>),
}
