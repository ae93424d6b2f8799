ghost use Rattle.std.specs.Prelude.{◌≡◌, ℤ, List};
ghost use Rattle.mr_defs.specs.Folded as fold;

use crate::combiner::Reducer;
use crate::{
    And, Both, Buffer, Count, Distinct, Max, Median, Min, One, Or, Plain, Sum, VecSum, Xor,
};

/// Carries as clauses which fold each combiner has with each of its reducers.
// The names are those that are brought out, so that one that stands for another's combiner is refused here.
pub fn folds_of_combiners()
    ensures sum { (vs : List ℤ) → ⟦<Plain as Reducer<Sum>>⟧.folded vs ≡ fold.sum_folded vs }
    ensures min { (vs : List ℤ) → ⟦<Plain as Reducer<Min>>⟧.folded vs ≡ fold.min_folded vs }
    ensures max { (vs : List ℤ) → ⟦<Plain as Reducer<Max>>⟧.folded vs ≡ fold.max_folded vs }
    ensures one { (vs : List ℤ) → ⟦<Plain as Reducer<One>>⟧.folded vs ≡ fold.one_folded vs }
    ensures count { (vs : List ℤ) → ⟦<Plain as Reducer<Count>>⟧.folded vs ≡ fold.count_folded vs }
    ensures and { (vs : List ℤ) → ⟦<Plain as Reducer<And>>⟧.folded vs ≡ fold.and_folded vs }
    ensures or { (vs : List ℤ) → ⟦<Plain as Reducer<Or>>⟧.folded vs ≡ fold.or_folded vs }
    ensures xor { (vs : List ℤ) → ⟦<Plain as Reducer<Xor>>⟧.folded vs ≡ fold.xor_folded vs }
    ensures minmax { (vs : List ℤ) → ⟦<Plain as Reducer<Both<Min, Max>>>⟧.folded vs ≡ fold.minmax_folded vs }
    ensures sumcount { (vs : List ℤ) → ⟦<Plain as Reducer<Both<Sum, Count>>>⟧.folded vs ≡ fold.sumcount_folded vs }
    ensures points { (ps : List (List ℤ)) → ⟦<Plain as Reducer<VecSum>>⟧.folded ps ≡ fold.vecsum_folded ps }
    ensures list { (vs : List ℤ) → ⟦<crate::List as Reducer<Buffer>>⟧.folded vs ≡ fold.list_folded vs }
    ensures distinct { (vs : List ℤ) → ⟦<Distinct as Reducer<Buffer>>⟧.folded vs ≡ fold.distinct_folded vs }
    ensures median { (vs : List ℤ) → ⟦<Median as Reducer<Buffer>>⟧.folded vs ≡ fold.median_folded vs }
{}
