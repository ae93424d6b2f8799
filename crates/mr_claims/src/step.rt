//! The steps under the rule, each with what it tells its caller.
ghost use Rattle.std.specs.Prelude.{◌≡◌, ◌<◌, ◌≤◌, ◌+◌, ◌-◌, ◌*◌, [], ◌++◌, length};
ghost use Rattle.mr_base.specs.Tasks.{times};
ghost use Rattle.mr_claims.specs.Lawful.{view, Claimed};

use crate::rule::{Claim, Claiming, Deal};
use crate::view::View;
use atomic_table::{Seat, Shared};
use mr_base::Ranges;

pub(crate) type Words = Shared<u8, View, Ranges, Claiming>;

pub(crate) type Claimant = Seat<u8, View>;

// One claim of the next number of a queue of which this seat has seen no end.
pub(crate) fn claim(words: &Words, seat: &mut Claimant, queue: u32) -> u64
    requires seat { (seat.old.table_id ≡ words.now.table_id) × (seat.old.me.1 ≡ []) }
    requires queue { (queue < length words.now.key) × (words.now.table_id.words ≡ length words.now.key * 8) }
    requires weight { seat.old.me.0.weight ≡ 1 }
    requires open { times queue seat.old.me.0.ends ≡ 0 }
    ensures same { (seat.new.table_id ≡ seat.old.table_id) × (seat.new.me.1 ≡ []) }
    ensures claim { Claimed queue seat.old.me.0 result seat.new.me.0 }
{
    words.fetch_add::<Claim>(seat, queue as usize * 8, 1)
}

// Cuts weight 1 off into a seat of its own.
pub(crate) fn cut_off(words: &Words, seat: &mut Claimant) -> Claimant
    requires seat { (seat.old.table_id ≡ words.now.table_id) × (seat.old.me.1 ≡ []) × (0 < words.now.table_id.words) }
    requires weight { 2 ≤ seat.old.me.0.weight }
    requires unused { (seat.old.me.0.given ≡ []) × (seat.old.me.0.ends ≡ []) }
    ensures same { (seat.new.table_id ≡ seat.old.table_id) × (seat.new.me.1 ≡ []) × (result.table_id ≡ seat.old.table_id)
        × (result.me.1 ≡ []) }
    ensures left { let v = seat.old.me.0 in seat.new.me.0 ≡ view v.tasks v.queues (v.weight - 1) v.given v.ends }
    ensures right { let v = seat.old.me.0 in result.me.0 ≡ view v.tasks v.queues 1 [] [] }
{
    words.split_seat::<Deal>(seat)
}

// Takes in what another seat has.
pub(crate) fn join(words: &Words, seat: &mut Claimant, other: Claimant)
    requires seat { (seat.old.table_id ≡ words.now.table_id) × (seat.old.me.1 ≡ []) × (0 < words.now.table_id.words)
        × (0 < seat.old.me.0.weight) }
    requires other { (other.table_id ≡ words.now.table_id) × (other.me.1 ≡ []) }
    ensures same { (seat.new.table_id ≡ seat.old.table_id) × (seat.new.me.1 ≡ []) }
    ensures both { let v = seat.old.me.0 in let w = other.me.0 in
        seat.new.me.0 ≡ view v.tasks v.queues (v.weight + w.weight) (v.given ++ w.given) (v.ends ++ w.ends) }
{
    words.join_seat::<Deal>(seat, other);
}
