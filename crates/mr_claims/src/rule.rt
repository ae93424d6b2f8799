//! The rule of the shared words, and the kinds of step under it. README.md of this crate explains both.
use crate::view::View;
use atomic_table::{Join, Play, Split, TableRule};
use mr_base::Ranges;

pub struct Claiming;

impl TableRule<u8, View, Ranges> for Claiming {
    ghost use Rattle.std.specs.Prelude.{[], length};
    ghost use Rattle.mr_base.specs.Tasks.{total_of};
    ghost use Rattle.mr_claims.specs.Lawful.{IsLawful, view};

    ghost holds = { λ ranges s. IsLawful (total_of ranges) (length ranges) s.words s.views };

    ghost first = { λ ranges. view (total_of ranges) (length ranges) (length ranges) [] [] };
}

// One claim: a task is given, or an end is seen.
pub struct Claim;

impl Play<u8, View> for Claim {
    ghost use Rattle.std.specs.Prelude.{◌≡◌};
    ghost use Rattle.mr_claims.specs.Lawful.{Claimed, queue_of};

    ghost then = { λ s me found after. Claimed (queue_of s.word) me.0 found after.0 × (after.1 ≡ me.1) };
}

// Weight 1 moves to a new view, or a view goes into another.
pub struct Deal;

impl Split<View> for Deal {
    ghost use Rattle.std.specs.Prelude.{[], ◌-◌};
    ghost use Rattle.mr_claims.specs.Lawful.{view};

    ghost left = { λ v. view v.tasks v.queues (v.weight - 1) v.given v.ends };

    ghost right = { λ v. view v.tasks v.queues 1 [] [] };
}

impl Join<View> for Deal {
    ghost use Rattle.std.specs.Prelude.{[], ◌+◌, ◌++◌};
    ghost use Rattle.mr_claims.specs.Lawful.{view};

    ghost both = { λ v w. view v.tasks v.queues (v.weight + w.weight) (v.given ++ w.given) (v.ends ++ w.ends) };

    ghost spent = { view 0 0 0 [] [] };
}
