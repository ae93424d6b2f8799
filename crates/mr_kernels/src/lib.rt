//! The tight loops over bytes and numbers: where words, fields and lines begin and end, how often a byte stands in a text, and the sum of
//! the products of two rows.
//!
//! The model of each call is its plain definition over the whole list, which its one clause names. The bodies take 32 or 64 bytes
//! at once, or go over the numbers in plain passes; nothing of this shows in a contract.
//!
//! Its promise: each call answers its plain definition, for lists of every length, and takes no memory.
#![tactic(auto)]

mod count;
mod edges;
mod masks;
mod product;
mod scan;

pub use count::count_byte;
pub use edges::{field_edges, word_edges};
pub use masks::is_word_byte;
pub use product::pair_sum;
pub use scan::{line_end, word_end, word_start};
