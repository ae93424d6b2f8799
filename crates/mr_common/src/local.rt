ghost use Rattle.std.specs.Prelude.{◌≡◌, ℕ, ℤ, [], true, List, length, nat_lt};
ghost use Rattle.std.specs.Cmp.{nat_cmp_total};
ghost use Rattle.std.specs.FinMap.{nat_cmp-IsAntisymmetric};
ghost use Rattle.std.specs.Ordering.{nat_cmp};
ghost use Rattle.std.proofs.Common.{refl, ap, sym, subst, ◌∙◌};
ghost use Rattle.mr_defs.specs.Emission.{Emission};
ghost use Rattle.mr_defs.specs.Stands.{SharesFor};
ghost use Rattle.mr_base.specs.Noting.{noted_of};
ghost use Rattle.mr_common.specs.Laws.{shares_in_any_order};
ghost use Rattle.mr_common.specs.Passes.{IsPassOf, IsUnused, won, refused};

use crate::common::{CommonArray, CommonPass, Emitted};
use crate::common_local::CommonLocal;
use mr_base::{Faults, Memory, NumKey, keep_lesser};
use mr_container::Local;

impl<'a> CommonLocal<'a> {
    /// A local that stands for no emission, by a pass that has emitted nothing. Takes no memory.
    pub fn new(array: &'a CommonArray, pass: CommonPass) -> CommonLocal<'a>
        requires pass { IsPassOf array.now.table.shared.table_id array.now.size pass }
        requires unused { IsUnused pass }
        ensures empty { ⟦<CommonLocal<'a> as Local>⟧.stands result [] }
        ensures origin { (result.array.now ≡ array.now) × (result.pass ≡ pass) }
    {
        CommonLocal {
            array,
            pass,
            cells: 0,
            faults: Faults::none(),
        }
    }

    /// Gives back the pass and the faults. Takes no memory.
    pub fn leave(self) -> (CommonPass, Faults<NumKey>)
        ensures left { (result.0 ≡ self.entry.pass) × (result.1 ≡ self.entry.faults) }
        ensures of { IsPassOf self.entry.array.now.table.shared.table_id self.entry.array.now.size result.0 }
        ensures shares { (es : List (Emission ℕ ℤ)) → ⟦<CommonLocal<'a> as Local>⟧.stands self.entry es
            → SharesFor nat_cmp (λ k. nat_lt k self.entry.array.now.size) (won result.0) (refused result.0) (length (won result.0))
            (noted_of result.1) es }
    {
        (self.pass, self.faults)
    }
}

impl<'a> Local for CommonLocal<'a> {
    type Key = NumKey;

    type Value = i64;

    ghost stands = { λ s es. SharesFor ⟦<NumKey as Ord>⟧.cmp (λ k. nat_lt k s.array.now.size) (won s.pass) (refused s.pass) s.cells
        (noted_of s.faults) es };

    ghost noted = { λ s. noted_of s.faults };

    ghost cell_count = { λ s. s.cells };

    ghost same_origin = { λ s t. (t.array.now ≡ s.array.now) × (t.pass.seat.id ≡ s.pass.seat.id) };

    ghost same = { λ s t. t ≡ s };

    ghost spares = { λ _ _. true };

    ghost any_order = { λ s es fs p h. shares_in_any_order nat_cmp_total nat_cmp-IsAntisymmetric
        (λ k. nat_lt k s.array.now.size) _ _ _ _ es fs p h };

    ghost same_refl = { λ _. refl };

    ghost same_keeps = { λ s t e. (
      (λ es h. subst (λ l. SharesFor ⟦<NumKey as Ord>⟧.cmp (λ k. nat_lt k l.array.now.size) (won l.pass) (refused l.pass) l.cells
          (noted_of l.faults) es) (sym e) h),
      ap (λ l. noted_of l.faults) e,
      ap (λ l. l.cells) e,
      λ _. refl,
    ) };

    ghost origin_refl = { λ _. (refl, refl) };

    ghost origin_trans = { λ s t u a b. (b.0 ∙ a.0, b.1 ∙ a.1) };

    fn emit(&mut self, key: NumKey, value: i64) -> Result<(), Memory> {
        match self.array.emit(&mut self.pass, key.0, value) {
            Emitted::Won => self.cells += 1,
            Emitted::Twice => keep_lesser(&mut self.faults.twice, Some(key)),
            Emitted::Outside => keep_lesser(&mut self.faults.outside, Some(key)),
        }
        Ok(())
    }

    fn too_large(&mut self, key: NumKey) {
        if key.0 < self.array.size as u64 {
            keep_lesser(&mut self.faults.over, Some(key));
        } else {
            keep_lesser(&mut self.faults.outside, Some(key));
        }
    }

    fn malformed(&mut self, offset: u64) {
        keep_lesser(&mut self.faults.malformed, Some(offset));
    }

    fn cells(&self) -> u64 {
        self.cells
    }

    fn faults(&self) -> &Faults<NumKey> {
        &self.faults
    }
}
