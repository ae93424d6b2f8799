ghost use Rattle.std.specs.Prelude.{◌≡◌, IsTrue, pos};
ghost use Rattle.mr_capacity.specs.Tables.{is_capacity, is_pairing};
ghost use Rattle.mr_jobfile.specs.Ranges.{most_partitions, greatest_chunk, most_clusters, most_rounds, are_patterns_of, has_means};
ghost use Rattle.mr_jobfile.specs.Ranges.{has_patterns, is_count_of, is_within};

use mr_base::Patterns;
use mr_capacity::{CombinerKind, ContainerKind, JobKind, KeyKind, QueueKind, ReducerKind};

/// A job: what a job file says, with its defaults filled in. Only what the tables allow can be one.
#[derive(Drop)]
pub struct Job {
    pub job: JobKind,
    pub container: ContainerKind,
    /// How many buckets a hash table has, or how many keys an array.
    pub capacity: u32,
    /// The key kind of the job's row in the table of pairings.
    pub keys: KeyKind,
    pub combiner: CombinerKind,
    /// What is made of the values of a buffer; None beside every other combiner.
    pub reducer: Option<ReducerKind>,
    pub queue: QueueKind,
    /// 1 to 64.
    pub partitions: u32,
    /// 1 to 16777216: bytes, pixel rows, index pairs or grid rows, by the job.
    pub chunk: u32,
    /// 1 to 64 for k-means, and 0 for every other job.
    pub clusters: u32,
    /// 1 to 1000 for k-means, and 0 for every other job.
    pub rounds: u32,
    /// 1 to 16 patterns of 1 to 64 bytes for string match, and none for every other job.
    pub patterns: Patterns,
    pub ghost capacity_is_allowed: { IsTrue (is_capacity (pos capacity)) },
    pub ghost pairing_is_allowed: { IsTrue (is_pairing job container keys combiner reducer) },
    pub ghost partitions_in_range: { IsTrue (is_within 1 most_partitions partitions) },
    pub ghost chunk_in_range: { IsTrue (is_within 1 greatest_chunk chunk) },
    pub ghost clusters_in_range: { IsTrue (is_count_of (has_means job) most_clusters clusters) },
    pub ghost rounds_in_range: { IsTrue (is_count_of (has_means job) most_rounds rounds) },
    pub ghost patterns_in_range: { IsTrue (are_patterns_of (has_patterns job) patterns) },
}
