//! The rule of the shared words, and the kinds of step under it. README.md of this crate explains both.
use crate::view::{Extent, View};
use atomic_table::{Join, Play, Split, TableRule};

pub struct FirstWins;

impl TableRule<u8, View, Extent> for FirstWins {
    ghost use Rattle.std.specs.Prelude.{[]};
    ghost use Rattle.mr_common.specs.Lawful.{IsLawful, view};

    ghost holds = { λ extent s. IsLawful extent.words extent.passes s.words s.views };

    ghost first = { λ extent. view extent.passes [] [] };
}

// One exchange: the pair is won, or its key is refused.
pub struct Exchange;

impl Play<u8, View> for Exchange {
    ghost use Rattle.std.specs.Prelude.{◌≡◌};
    ghost use Rattle.mr_common.specs.Lawful.{Exchanged};

    ghost then = { λ s me found after. Exchanged s.word s.second me.0 found after.0 × (after.1 ≡ me.1) };
}

// Weight 1 moves to a new view, or a view goes into another.
pub struct Deal;

impl Split<View> for Deal {
    ghost use Rattle.std.specs.Prelude.{[], ◌-◌};
    ghost use Rattle.mr_common.specs.Lawful.{view};

    ghost left = { λ v. view (v.weight - 1) v.won v.refused };

    ghost right = { λ v. view 1 [] [] };
}

impl Join<View> for Deal {
    ghost use Rattle.std.specs.Prelude.{[], ◌+◌, ◌++◌};
    ghost use Rattle.mr_common.specs.Lawful.{view};

    ghost both = { λ v w. view (v.weight + w.weight) (v.won ++ w.won) (v.refused ++ w.refused) };

    ghost spent = { view 0 [] [] };
}
