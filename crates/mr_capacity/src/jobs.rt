use crate::kinds::CombinerKind::{
    self, And, Count, Max, Min, MinMax, Once, One, Or, Sum, SumCount, VecSum, Xor,
};
use crate::kinds::ContainerKind::{self, Array, Common, Hash};
use crate::kinds::KeyKind::{Bytes, Numbers};
use crate::kinds::ReducerKind::{self, Distinct, List, Median};
use crate::tables::Pairing;
use Further::{Keys, Means, Nothing, Patterns};
use JobKind::{
    FoldLines, Histogram, InvertedIndex, KMeans, LinearRegression, MatrixProduct, Pca, StringMatch,
    WordCount,
};

/// What is done with the input.
#[derive(Clone, Copy, Debug, PartialEq, Eq)]
pub enum JobKind {
    WordCount,
    FoldLines,
    InvertedIndex,
    StringMatch,
    Histogram,
    LinearRegression,
    MatrixProduct,
    KMeans,
    Pca,
}

/// The jobs, by the names that a job file has for them.
pub const JOB_NAMES: [(&str, JobKind); 9] = [
    ("word_count", JobKind::WordCount),
    ("fold_lines", JobKind::FoldLines),
    ("inverted_index", JobKind::InvertedIndex),
    ("string_match", JobKind::StringMatch),
    ("histogram", JobKind::Histogram),
    ("linear_regression", JobKind::LinearRegression),
    ("matrix_product", JobKind::MatrixProduct),
    ("kmeans", JobKind::KMeans),
    ("pca", JobKind::Pca),
];

/// The jobs over the bytes of a text: their chunk counts bytes. The chunk of the others counts pixel rows, index pairs or grid rows.
pub const TEXT_JOBS: [JobKind; 4] = [WordCount, FoldLines, InvertedIndex, StringMatch];

/// Which keys a job file has beside those that each has, the reducer and those with a default.
#[derive(Clone, Copy, Debug, PartialEq, Eq)]
pub enum Further {
    Nothing,
    /// `keys`, with the row's key kind.
    Keys,
    /// `patterns`.
    Patterns,
    /// `clusters` and `rounds`.
    Means,
}

// Containers: a hash table, those that each worker has for itself, and the array that all share.
const HASH: [ContainerKind; 1] = [Hash];

const OWN: [ContainerKind; 2] = [Hash, Array];

const COMMON: [ContainerKind; 1] = [Common];

// Combiners: those that fold whole numbers without keeping them, those that count, those of the places of a word, and single ones.
const PLAIN: [CombinerKind; 10] = [Sum, Min, Max, One, Count, And, Or, Xor, MinMax, SumCount];

const COUNTS: [CombinerKind; 3] = [Sum, Count, One];

const PLACES: [CombinerKind; 3] = [Min, Max, Count];

const SUM: [CombinerKind; 1] = [Sum];

const VEC_SUM: [CombinerKind; 1] = [VecSum];

const ONCE: [CombinerKind; 1] = [Once];

// Reducers of a buffer.
const NONE: [ReducerKind; 0] = [];

const EACH: [ReducerKind; 3] = [List, Median, Distinct];

const LISTS: [ReducerKind; 2] = [List, Distinct];

/// What goes together. A new pairing is one line.
pub const PAIRINGS: [Pairing; 12] = [
    (WordCount, Bytes, &HASH, &COUNTS, &NONE, Nothing),
    (FoldLines, Bytes, &HASH, &PLAIN, &EACH, Keys),
    (FoldLines, Numbers, &OWN, &PLAIN, &EACH, Keys),
    (FoldLines, Numbers, &COMMON, &ONCE, &NONE, Keys),
    (InvertedIndex, Bytes, &HASH, &PLACES, &LISTS, Nothing),
    (StringMatch, Numbers, &OWN, &COUNTS, &NONE, Patterns),
    (Histogram, Numbers, &OWN, &COUNTS, &NONE, Nothing),
    (LinearRegression, Numbers, &OWN, &SUM, &NONE, Nothing),
    (MatrixProduct, Numbers, &OWN, &SUM, &NONE, Nothing),
    (MatrixProduct, Numbers, &COMMON, &ONCE, &NONE, Nothing),
    (KMeans, Numbers, &OWN, &VEC_SUM, &NONE, Means),
    (Pca, Numbers, &OWN, &SUM, &NONE, Nothing),
];
