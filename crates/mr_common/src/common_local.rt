ghost use Rattle.std.specs.Prelude.{◌≡◌, length};
ghost use Rattle.mr_common.specs.Passes.{IsPassOf, won};

use crate::common::{CommonArray, CommonPass};
use mr_base::{Faults, NumKey};

/// The container of one worker over the array common to all: it emits by the worker's pass, counts the pairs that the pass won, and notes
/// the faults.
///
/// In place of cells, what its pass won and was refused are the pairs of the keys below the array's size that were emitted into it.
#[derive(Drop)]
pub struct CommonLocal<'a> {
    pub(crate) array: &'a CommonArray,
    pub(crate) pass: CommonPass,
    pub(crate) cells: u64,
    pub(crate) faults: Faults<NumKey>,
    ghost of: { IsPassOf array.now.table.shared.table_id array.now.size pass },
    ghost counted: { cells ≡ length (won pass) },
}
