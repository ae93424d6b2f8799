//! The steps under the rule, each with what it tells its caller.
ghost use Rattle.std.specs.Prelude.{ℕ, negsuc, ◌≡◌, ◌≢◌, ◌<◌, ◌≤◌, ◌+◌, ◌-◌, [], ◌∷◌, ◌++◌, true, false};
ghost use Rattle.std.specs.Int.{cast_signed};
ghost use mir.Syntax.{w64};
ghost use Rattle.mr_defs.specs.Folded.{limit};
ghost use Rattle.mr_base.specs.Tasks.{times};
ghost use Rattle.mr_common.specs.Lawful.{view, keys, EMPTY};

use crate::rule::{Deal, Exchange, FirstWins};
use crate::view::{Extent, View};
use atomic_table::{Seat, Shared};

pub(crate) type Words = Shared<u8, View, Extent, FirstWins>;

pub(crate) type Emitter = Seat<u8, View>;

// A word that holds no value: the bits of the least number of 64 bits, which is no value.
pub(crate) const NOTHING: u64 = 1 << 63;

// The bits of a value.
pub(crate) fn word_of(value: i64) -> u64
    requires { value ≢ negsuc limit }
    ensures is { cast_signed w64 result ≡ value }
    ensures full { result ≢ EMPTY }
{
    value.cast_unsigned()
}

// One exchange of the word of a key, which puts the value there if the word is empty. Whether it was.
pub(crate) fn exchange(words: &Words, seat: &mut Emitter, key: usize, value: u64) -> bool
    requires seat { (seat.old.table_id ≡ words.now.table_id) × (seat.old.me.1 ≡ []) × (seat.old.me.0.weight ≡ 1) }
    requires key { (key < words.now.table_id.words) × (key < words.now.key.words) }
    requires value { value ≢ EMPTY }
    ensures same { (seat.new.table_id ≡ seat.old.table_id) × (seat.new.me.1 ≡ []) × (seat.new.id ≡ seat.old.id) }
    ensures once { (j : ℕ) → times j (keys seat.new.me.0.won) ≤ 1 }
    ensures won { result ≡ true → seat.new.me.0 ≡ view 1 (seat.old.me.0.won ++ (key, cast_signed w64 value) ∷ []) seat.old.me.0.refused }
    ensures refused { result ≡ false → seat.new.me.0 ≡ view 1 seat.old.me.0.won (seat.old.me.0.refused ++ key ∷ []) }
{
    words.compare_exchange::<Exchange>(seat, key, NOTHING, value) == NOTHING
}

// Cuts weight 1 off into a seat of its own.
pub(crate) fn cut_off(words: &Words, seat: &mut Emitter) -> Emitter
    requires seat { (seat.old.table_id ≡ words.now.table_id) × (seat.old.me.1 ≡ []) × (0 < words.now.table_id.words) }
    requires weight { 2 ≤ seat.old.me.0.weight }
    requires unused { (seat.old.me.0.won ≡ []) × (seat.old.me.0.refused ≡ []) }
    ensures same { (seat.new.table_id ≡ seat.old.table_id) × (seat.new.me.1 ≡ []) × (result.table_id ≡ seat.old.table_id)
        × (result.me.1 ≡ []) }
    ensures left { let v = seat.old.me.0 in seat.new.me.0 ≡ view (v.weight - 1) v.won v.refused }
    ensures right { result.me.0 ≡ view 1 [] [] }
{
    words.split_seat::<Deal>(seat)
}

// Takes in what another seat has.
pub(crate) fn join(words: &Words, seat: &mut Emitter, other: Emitter)
    requires seat { (seat.old.table_id ≡ words.now.table_id) × (seat.old.me.1 ≡ []) × (0 < words.now.table_id.words)
        × (0 < seat.old.me.0.weight) }
    requires other { (other.table_id ≡ words.now.table_id) × (other.me.1 ≡ []) }
    ensures same { (seat.new.table_id ≡ seat.old.table_id) × (seat.new.me.1 ≡ []) }
    ensures both { let v = seat.old.me.0 in let w = other.me.0 in
        seat.new.me.0 ≡ view (v.weight + w.weight) (v.won ++ w.won) (v.refused ++ w.refused) }
{
    words.join_seat::<Deal>(seat, other);
}
