use crate::deque::{Guest, Owner};
use mr_base::Few;

/// The right of one worker to take. It owns one deque and has a view of every other.
#[derive(Drop)]
pub struct DequePass {
    pub(crate) number: u32,
    pub(crate) own: Owner,
    // Its views of the other deques, in their order. None at the place of its own, whose view lies in `own`.
    pub(crate) guests: Few<Option<Guest>>,
    // The deques of which it has an end mark.
    pub(crate) marked: [bool; 32],
    pub(crate) ended: bool,
}
