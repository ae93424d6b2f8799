//! Each deque is shared out among the passes.
ghost use Rattle.std.specs.Prelude.{◌≡◌, ◌<◌, ◌+◌, [], ◌∷◌, ◌++◌, IfOk, length};
ghost use Rattle.mr_deques.specs.Phases.{Sharing};

use crate::deque::{Guest, cut_off};
use crate::deques::Deques;
use crate::passes::DequePass;
use mr_base::{Few, Memory};

// Puts a view or a gap last.
fn add(guests: &mut Few<Option<Guest>>, guest: Option<Guest>) -> Result<(), Memory>
    ensures { IfOk result (λ _. guests.new.items ≡ guests.old.items ++ guest ∷ []) }
{
    guests.room()?;
    guests.push(guest);
    Ok(())
}

// Pass w gets its view of deque q, or a gap where it owns the deque.
fn hand_out(deques: &Deques, all: &mut [DequePass], w: usize, q: usize) -> Result<(), Memory>
    requires places { (w < length deques.now.ranges) × (q < length deques.now.ranges) }
    requires sharing { Sharing deques.now q w all.old }
    ensures { IfOk result (λ _. Sharing deques.now q (w + 1) all.new) }
{
    if w == q {
        add(&mut all[w].guests, None)?;
        return Ok(());
    }
    let guest = cut_off(&mut all[q].own);
    add(&mut all[w].guests, Some(guest))?;
    Ok(())
}

// Every pass gets its view of every deque.
pub(crate) fn share_all(deques: &Deques, all: &mut [DequePass]) -> Result<(), Memory>
    requires { Sharing deques.now 0 0 all.old }
    ensures { IfOk result (λ _. Sharing deques.now (length deques.now.ranges) 0 all.new) }
{
    let count = deques.ranges.queues() as usize;
    for q in 0..count {
        for w in 0..count {
            hand_out(deques, all, w, q)?;
        }
    }
    Ok(())
}
