ghost use Rattle.std.specs.Prelude.{◌≡◌};
ghost use Rattle.mr_capacity.specs.Jobs.{job_names};
ghost use Rattle.mr_capacity.specs.Names.{entries, constant_entries, named, container_names, key_names, combiner_names, reducer_names};
ghost use Rattle.mr_capacity.specs.Names.{queue_names};

use crate::jobs::JOB_NAMES;
use crate::kinds::{CombinerKind, ContainerKind, KeyKind, QueueKind, ReducerKind};

/// The containers by name.
pub const CONTAINER_NAMES: [(&str, ContainerKind); 3] = [
    ("hash", ContainerKind::Hash),
    ("array", ContainerKind::Array),
    ("common", ContainerKind::Common),
];

/// The key kinds by name.
pub const KEY_NAMES: [(&str, KeyKind); 2] = [
    ("bytes", KeyKind::Bytes),
    ("numbers", KeyKind::Numbers),
];

/// The combiners by name.
pub const COMBINER_NAMES: [(&str, CombinerKind); 13] = [
    ("sum", CombinerKind::Sum),
    ("min", CombinerKind::Min),
    ("max", CombinerKind::Max),
    ("one", CombinerKind::One),
    ("count", CombinerKind::Count),
    ("and", CombinerKind::And),
    ("or", CombinerKind::Or),
    ("xor", CombinerKind::Xor),
    ("minmax", CombinerKind::MinMax),
    ("sumcount", CombinerKind::SumCount),
    ("vecsum", CombinerKind::VecSum),
    ("buffer", CombinerKind::Buffer),
    ("once", CombinerKind::Once),
];

/// The reducers by name.
pub const REDUCER_NAMES: [(&str, ReducerKind); 3] = [
    ("list", ReducerKind::List),
    ("median", ReducerKind::Median),
    ("distinct", ReducerKind::Distinct),
];

/// The queues by name.
pub const QUEUE_NAMES: [(&str, QueueKind); 3] = [
    ("blocks", QueueKind::Blocks),
    ("ranges", QueueKind::Ranges),
    ("deques", QueueKind::Deques),
];

/// The kind that a table of names has for this text.
pub fn named<K: Copy>(names: &[(&str, K)], text: &str) -> Option<K>
    ensures { result ≡ named (entries names.now) text.now }
{
    for (name, kind) in names {
        if *name == text {
            return Some(*kind);
        }
    }
    None
}

/// Carries as clauses that the tables of names are those that `specs/` writes out.
pub fn tables_of_names()
    ensures jobs { constant_entries JOB_NAMES ≡ job_names }
    ensures containers { constant_entries CONTAINER_NAMES ≡ container_names }
    ensures keys { constant_entries KEY_NAMES ≡ key_names }
    ensures combiners { constant_entries COMBINER_NAMES ≡ combiner_names }
    ensures reducers { constant_entries REDUCER_NAMES ≡ reducer_names }
    ensures queues { constant_entries QUEUE_NAMES ≡ queue_names }
{}
