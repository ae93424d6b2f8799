/// Where a worker keeps the values of its keys: a hash table or an array of each worker, or one array that all workers share.
#[derive(Clone, Copy, Debug, PartialEq, Eq)]
pub enum ContainerKind {
    Hash,
    Array,
    Common,
}

/// What a key is: bytes, or a number.
#[derive(Clone, Copy, Debug, PartialEq, Eq)]
pub enum KeyKind {
    Bytes,
    Numbers,
}

/// How the values of one key are combined. `Once` is the rule of the array that all workers share: the value itself, of a key that is
/// emitted at most once.
#[derive(Clone, Copy, Debug, PartialEq, Eq)]
pub enum CombinerKind {
    Sum,
    Min,
    Max,
    One,
    Count,
    And,
    Or,
    Xor,
    MinMax,
    SumCount,
    VecSum,
    Buffer,
    Once,
}

/// What is made of the values that the combiner `Buffer` keeps.
#[derive(Clone, Copy, Debug, PartialEq, Eq)]
pub enum ReducerKind {
    List,
    Median,
    Distinct,
}

/// How the workers take their tasks: each from a block of its own, or from ranges or deques of which others may steal.
#[derive(Clone, Copy, Debug, PartialEq, Eq)]
pub enum QueueKind {
    Blocks,
    Ranges,
    Deques,
}
