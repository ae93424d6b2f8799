ghost use Rattle.std.specs.Prelude.{◌≡◌, ◌≤◌, ◌<◌, ℕ, pos, nat_abs, length, flat_map, slice_index_or, All};
ghost use Rattle.std.specs.List.{range_with_len};
ghost use Rattle.mr_defs.specs.Folded.{limit};
ghost use Rattle.mr_defs.specs.Limits.{greatest_element};
ghost use Rattle.mr_defs.specs.Tasks as tasks;
ghost use Rattle.mr_items.specs.Pca.{column_emits, column_emissions};
ghost use Rattle.mr_split.specs.Pieces.{AreSpans};

use crate::pairs::emit_pairs;
use crate::spanned::{Items, Spanned};
use mr_base::{Memory, NumKey};
use mr_container::{Local, Mapper};
use mr_grid::Grid;
use mr_split::Spans;
use std::alloc::Global;

/// The rows of a grid. A row emits each of its numbers for its column.
#[derive(Drop)]
pub struct Columns<'a> {
    grid: &'a Grid,
}

/// The sums of the columns of a grid.
pub type ColumnSums<'a> = Spanned<Columns<'a>>;

impl<'a> Spanned<Columns<'a>> {
    /// The job over the rows of this grid, cut into these spans. Takes no memory.
    pub fn new(grid: &'a Grid, spans: Spans) -> ColumnSums<'a>
        requires { AreSpans (length grid.now) spans }
        ensures count { ⟦<ColumnSums<'a> as Mapper>⟧.task_count result ≡ length spans }
        ensures tasks { (t : ℕ) → ⟦<ColumnSums<'a> as Mapper>⟧.task_emissions result t
            ≡ tasks.task_emissions (column_emits grid.now) (range_with_len 0 (length grid.now)) (slice_index_or spans t (0, 0)) }
        ensures whole { flat_map (⟦<ColumnSums<'a> as Mapper>⟧.task_emissions result)
            (range_with_len 0 (⟦<ColumnSums<'a> as Mapper>⟧.task_count result)) ≡ column_emissions grid.now }
    {
        Spanned::over(Columns { grid }, spans)
    }
}

impl<'a> Items for Columns<'a> {
    type Value = i64;

    ghost count = { λ c. length c.grid.now };

    ghost emits = { λ c i. column_emits c.grid.now i };

    fn emit_item<L: Local<Key = NumKey, Value = i64>>(
        &self,
        _alloc: Global,
        item: u64,
        out: &mut L,
    ) -> Result<(), Memory> {
        let row = self.grid.row(item);
        for j in 0..row.len() {
            emit_pairs(&[(j as u64, element(row, j))], out)?;
        }
        Ok(())
    }
}

/// The number at a place of a row.
#[inline(always)]
fn element(row: &[i32], j: usize) -> i64
    requires row { All (λ z. nat_abs z ≤ greatest_element) row.now }
    requires j { j < length row.now }
    ensures element { result ≡ slice_index_or row.now j (pos 0) }
    ensures small { nat_abs result ≤ limit }
{
    row[j] as i64
}
