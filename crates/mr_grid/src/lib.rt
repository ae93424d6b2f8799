//! Readers of grids of numbers and of bitmaps.
//!
//! A grid is seen as the list of its rows, each a list of numbers; it keeps the numbers of all rows one after the other. Several workers
//! read it by ranges of lines, once its first row has given the columns. A bitmap is the place of its first pixel, its width, its rows and
//! the bytes of a row, and its pixels stay in the input.
//!
//! Its promise: what is read is what the definition of the whole text gives, or the first fault that this definition names; want of
//! memory alone is free.
#![tactic(auto)]

mod bitmap;
mod field;
mod grid;
mod line;
mod ranges;
mod reading;

pub use bitmap::{Bitmap, read_bitmap};
pub use grid::Grid;
pub use mr_items::{BitmapFault, GridFault};
pub use ranges::read_grid_by;
pub use reading::read_grid;
