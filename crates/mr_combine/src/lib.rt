//! Combiners and reducers: how the values of a key become one cell when they are emitted, and what that cell answers.
//!
//! A combiner keeps one cell for a key: `unit` makes the cell of a value, `add` takes in one value more, `merge` the cell of another
//! worker. What contracts see of a cell is a plain value, on which `merged` is associative and commutative and `add` is `merged` with the
//! cell of the value, so neither the order of the values nor the cut between workers counts. A cell that is over its limit stays over.
//!
//! Its promise: the cell of any list of values is over exactly where the plain fold of the list is None, and is reduced to that fold where
//! it is not (`Reducer`'s law `is_fold`, whose folds are those of `mr_defs`). The calls of a fixed combiner take no memory.
#![tactic(auto)]

mod both;
mod buffer;
mod combiner;
mod coordinates;
mod count;
mod folds;
mod operation;
mod points;
mod run;
mod scalar;
mod single;
mod sum;

pub use both::Both;
pub use buffer::{Buffer, BufferCell, Distinct, List, Median};
pub use combiner::{Combiner, FixedCombiner, Reducer};
pub use count::{Count, CountCell};
pub use folds::folds_of_combiners;
pub use operation::{And, Max, Min, One, Or, Xor};
pub use points::{Point, VecSum, VecSumCell};
pub use run::Run;
pub use single::{Plain, Single};
pub use sum::{Sum, SumCell};

/// What neither the number of the values of a key nor the sum of their magnitudes may pass.
const LIMIT: u64 = 9223372036854775807;
