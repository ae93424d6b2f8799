//! The rule of a deque, and the kinds of step under it. README.md of this crate explains both.
use crate::view::{About, View};
use crossbeam_deque::protocol::{Join, Outcome, Protocol, Split};
use std::marker::{Brand, PhantomData};

// Tasks and, behind them, end marks, which leave at the front.
pub struct TasksThenMarks;

impl Protocol<u32, View> for TasksThenMarks {
    ghost use Rattle.mr_deques.specs.Lawful.{IsLawful, first as unbegun, blank};

    ghost holds = { IsLawful };

    ghost first = { unbegun };

    ghost guest = { blank };
}

// Which deque is filled. A call of `filled` picks it: the rule has one first view for all deques, so the first push is what tells it.
pub trait Numbered {
    ghost use Rattle.mr_deques.specs.declared.view.About.{About};

    ghost about: { About };
}

impl Numbered for Brand {
    ghost use Rattle.mr_deques.specs.Lawful.{about as of_numbers};

    ghost about = { of_numbers 0 0 0 };
}

// The first push.
pub struct Begins<J> {
    of: PhantomData<J>,
}

impl<J: Numbered> Outcome<u32, View> for Begins<J> {
    ghost use Rattle.std.specs.Prelude.{◌≡◌, ◌+◌, ◌==◌, []};
    ghost use Rattle.mr_deques.specs.Lawful.{view};

    ghost then = { λ v xs w. w ≡ view J.about (J.about.start + 1) J.about.passes [] (J.about.start + 1 == J.about.end + J.about.passes) };
}

// A later push.
pub struct Puts;

impl Outcome<u32, View> for Puts {
    ghost use Rattle.std.specs.Prelude.{◌≡◌, ◌+◌, ◌==◌};
    ghost use Rattle.mr_deques.specs.Lawful.{view};

    ghost then = { λ v xs w. w ≡ view v.about (v.pushed + 1) v.weight v.list (v.pushed + 1 == v.about.end + v.about.passes) };
}

// A pop or a steal, of a task or of an end mark. It never finds the deque empty.
pub struct Takes;

impl Outcome<u32, View> for Takes {
    ghost use Rattle.std.specs.Prelude.{◌≡◌};
    ghost use Rattle.mr_deques.specs.Lawful.{Took};

    ghost then = { Took };

    ghost empty = { λ v. ⊥ };
}

// Weight 1 moves to a new view, or a view goes into another.
pub struct Deal;

impl Split<View> for Deal {
    ghost use Rattle.std.specs.Prelude.{[], ◌-◌, true};
    ghost use Rattle.mr_deques.specs.Lawful.{view};

    ghost left = { λ v. view v.about v.pushed (v.weight - 1) v.list true };

    ghost right = { λ v. view v.about v.pushed 1 [] true };
}

impl Join<View> for Deal {
    ghost use Rattle.std.specs.Prelude.{◌+◌, ◌++◌, true};
    ghost use Rattle.mr_deques.specs.Lawful.{view, blank};

    ghost both = { λ v w. view v.about v.pushed (v.weight + w.weight) (v.list ++ w.list) true };

    ghost spent = { blank };
}

// The last pop, by the view of the whole weight.
pub struct Last;

impl Outcome<u32, View> for Last {
    ghost use Rattle.mr_deques.specs.Lawful.{HasAll, Took};

    ghost then = { λ v xs w. HasAll v × Took v xs w };

    ghost empty = { HasAll };
}
