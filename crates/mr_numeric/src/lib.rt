//! The jobs over numbered items: the pixels of a bitmap, and the rows of a grid.
//!
//! `Items` says of a job what each of its items emits, and `Spanned` cuts the items into tasks: a task is a span, and emits what its items
//! emit, one after the other. A job reads its bitmap or grid where it stands and takes no memory. The texts of those jobs that don't print
//! their rows as they are stand here too.
//!
//! Its promise: a task emits exactly what `mr_items` says of the items of its span, all tasks together what the whole input does, and a
//! text is that of the definition.
#![tactic(auto)]

mod block;
mod cluster_lines;
mod columns;
mod distance;
mod histogram;
mod means;
mod means_of_columns;
mod narrow;
mod nearest;
mod new_means;
mod pairs;
mod pca_lines;
mod product;
mod regression;
mod regression_lines;
mod spanned;
mod spread;
mod sums;

pub use cluster_lines::kmeans_text;
pub use columns::{ColumnSums, Columns};
pub use histogram::{Histogram, PixelRows};
pub use means::Means;
pub use means_of_columns::{ColumnMeans, column_means};
pub use nearest::{Clustered, KMeans};
pub use new_means::next_means;
pub use pca_lines::pca_text;
pub use product::{Product, RowPairs};
pub use regression::{Points, Regression};
pub use regression_lines::regression_text;
pub use spanned::{Items, Spanned};
pub use spread::{Deviations, Spread};
