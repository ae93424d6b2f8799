//! The array container of a worker.
//!
//! `ArrayLocal` keeps one place for each number key below its size. A key that is not below it is outside and noted. The part of a key is
//! the key modulo the number of parts, and a part is read off from its own places alone.
//!
//! Its promise: `ArrayLocal` meets the laws of `Local` and `Parted`. Its memory is taken when it is made, and with a fixed combiner a pair
//! takes none.
#![tactic(auto)]

mod array;

pub use array::{ArrayLocal, Fixed, Size};
