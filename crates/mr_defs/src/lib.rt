//! The model of a job: what a list of emissions means, key by key.
//!
//! The definitions stand in `specs/`. An emission is a pair of a key and a value, a key whose value is too large, or an
//! item without form at an offset. One list of all emissions is filtered and folded for each key; it knows no task, worker,
//! bucket or partition. Contracts of the crates above cite these definitions and no other.
//!
//! Its promise: no row, fault or count depends on the order of the emissions (`laws_of_order`, `laws_of_folds`).
#![tactic(auto)]

ghost use Rattle.std.specs.Prelude.{Bool, List, Option};
ghost use Rattle.std.specs.List.Sorted.{IsPermutation};
ghost use Rattle.std.specs.FinMap.{IsAntisymmetric};
ghost use Rattle.mr_defs.specs.Emission.{Emission, Answer};
ghost use Rattle.mr_defs.specs.Folded.{sum_folded, min_folded, max_folded, one_folded, count_folded, and_folded, or_folded, xor_folded};
ghost use Rattle.mr_defs.specs.Folded.{minmax_folded, sumcount_folded, vecsum_folded, list_folded, distinct_folded, median_folded};
ghost use Rattle.mr_defs.specs.Laws.{IsFoldOrderFree, MeansTheSame, SharesTheSame};

/// The first fault of a list of emissions: an item without form at its offset, a key outside the container, a key that is emitted twice, or
/// a key whose value or fold is over the limit.
#[derive(Debug, Drop)]
pub enum Fault<K> {
    Malformed(u64),
    Outside(K),
    Twice(K),
    Over(K),
}

/// Carries the laws of order as clauses: two lists of emissions of which one is a permutation of the other mean the same, for keys in
/// any total order in which only equal keys tie, and for every fold that no order of the values changes. In the array common to all
/// workers this holds of the fault, and of the rows where no key stands in two pairs, for every fold.
pub fn laws_of_order<K: Ord, V>()
    ensures own { IsAntisymmetric K.cmp → (inside : K → Bool) (folded : List V → Option Answer) → IsFoldOrderFree folded
        → (xs ys : List (Emission K V)) → IsPermutation xs ys → MeansTheSame K.cmp inside folded xs ys }
    ensures common { IsAntisymmetric K.cmp → (inside : K → Bool) (folded : List V → Option Answer)
        → (xs ys : List (Emission K V)) → IsPermutation xs ys → SharesTheSame K.cmp inside folded xs ys }
{}

/// Carries as clauses that no fold of a combiner with its reducer depends on the order of the values.
pub fn laws_of_folds()
    ensures sum { IsFoldOrderFree sum_folded }
    ensures min { IsFoldOrderFree min_folded }
    ensures max { IsFoldOrderFree max_folded }
    ensures one { IsFoldOrderFree one_folded }
    ensures count { IsFoldOrderFree count_folded }
    ensures and { IsFoldOrderFree and_folded }
    ensures or { IsFoldOrderFree or_folded }
    ensures xor { IsFoldOrderFree xor_folded }
    ensures minmax { IsFoldOrderFree minmax_folded }
    ensures sumcount { IsFoldOrderFree sumcount_folded }
    ensures vecsum { IsFoldOrderFree vecsum_folded }
    ensures list { IsFoldOrderFree list_folded }
    ensures distinct { IsFoldOrderFree distinct_folded }
    ensures median { IsFoldOrderFree median_folded }
{}
