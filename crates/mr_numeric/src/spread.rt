ghost use Rattle.std.specs.Prelude.{◌≡◌, ◌≤◌, ◌<◌, ◌-◌, ◌++◌, ◌*ℤ◌, ℕ, ℤ, pos, nat_abs, nat_le, List, length, take, flat_map};
ghost use Rattle.std.specs.Prelude.{slice_index_or, if◌then◌else◌, Some, None, IsOk, IsTrue, OnOk, OnErr};
ghost use Rattle.std.specs.List.{All, range_with_len};
ghost use Rattle.mr_defs.specs.Emission.{Emission};
ghost use Rattle.mr_defs.specs.Folded.{limit};
ghost use Rattle.mr_defs.specs.Limits.{greatest_element};
ghost use Rattle.mr_defs.specs.Tasks as tasks;
ghost use Rattle.mr_items.specs.Grid.{columns_of};
ghost use Rattle.mr_items.specs.Pca.{spread_emits, spread_emissions};
ghost use Rattle.mr_split.specs.Pieces.{AreSpans};
ghost use Rattle.mr_numeric.specs.Blocks.{AreMild, column_runs};
ghost use Rattle.mr_numeric.specs.Pairs.{couple_emits};

use crate::block::{Column, Products, columns_between, deviation};
use crate::means_of_columns::ColumnMeans;
use crate::pairs::emit_sum;
use crate::spanned::{Items, Spanned};
use mr_base::{Memory, NumKey};
use mr_container::{Local, Mapper};
use mr_grid::Grid;
use mr_split::Spans;
use std::alloc::Global;

/// The largest magnitude of a value.
const LIMIT: u64 = 9223372036854775807;

/// So many rows are read column by column at once.
const BLOCK: u64 = 128;

/// The rows of a grid, beside the means of its columns, emitted row by row.
#[derive(Drop)]
struct RowByRow<'a> {
    grid: &'a Grid,
    means: &'a ColumnMeans,
    ghost each: { length means.now ≡ columns_of grid.now },
    ghost small: { All (λ z. nat_abs z ≤ greatest_element) means.now },
    ghost narrow: { columns_of grid.now ≤ 1024 },
}

/// The rows of a grid, beside the means of its columns. A row emits for each pair i, j of columns with i at most j the product of the two
/// elements less their means, for the key i c + j where c is the number of columns, or a too large value.
///
/// Where no memory can be wanted and no product is too large, the products of some rows are emitted pair by pair of columns: each pair's
/// are a run of one key.
#[derive(Drop)]
pub struct Deviations<'a> {
    rows: RowByRow<'a>,
}

/// How the columns of a grid vary together.
pub type Spread<'a> = Spanned<Deviations<'a>>;

impl<'a> Spanned<Deviations<'a>> {
    /// The job over the rows of this grid, whose columns have these means, cut into these spans. Takes no memory.
    pub fn new(grid: &'a Grid, means: &'a ColumnMeans, spans: Spans) -> Spread<'a>
        requires each { length means.now ≡ columns_of grid.now }
        requires small { All (λ z. nat_abs z ≤ greatest_element) means.now }
        requires narrow { columns_of grid.now ≤ 1024 }
        requires spans { AreSpans (length grid.now) spans }
        ensures count { ⟦<Spread<'a> as Mapper>⟧.task_count result ≡ length spans }
        ensures tasks { (t : ℕ) → ⟦<Spread<'a> as Mapper>⟧.task_emissions result t
            ≡ tasks.task_emissions (spread_emits means.now grid.now) (range_with_len 0 (length grid.now)) (slice_index_or spans t (0, 0)) }
        ensures whole { flat_map (⟦<Spread<'a> as Mapper>⟧.task_emissions result)
            (range_with_len 0 (⟦<Spread<'a> as Mapper>⟧.task_count result)) ≡ spread_emissions means.now grid.now }
    {
        let rows = RowByRow { grid, means };
        Spanned::over(Deviations { rows }, spans)
    }
}

impl<'a> Items for RowByRow<'a> {
    type Value = i64;

    ghost count = { λ d. length d.grid.now };

    ghost emits = { λ d i. spread_emits d.means.now d.grid.now i };

    fn emit_item<L: Local<Key = NumKey, Value = i64>>(
        &self,
        _alloc: Global,
        item: u64,
        out: &mut L,
    ) -> Result<(), Memory> {
        let row = self.grid.row(item);
        let means = self.means.as_slice();
        for i in 0..row.len() {
            emit_couples(row, means, i, out)?;
        }
        Ok(())
    }
}

impl<'a> Deviations<'a> {
    /// Emits what the rows from one number up to another have.
    fn emit_block<L: Local<Key = NumKey, Value = i64>>(
        &self,
        alloc: Global,
        from: u64,
        to: u64,
        out: &mut L,
    ) -> Result<(), Memory>
        requires order { from ≤ to }
        requires inside { to ≤ length self.now.rows.grid.now }
        ensures ok { OnOk result ((es : List (Emission ℕ ℤ)) → L.stands out.old es
            → L.stands out.new
            (es ++ flat_map (spread_emits self.now.rows.means.now self.now.rows.grid.now) (range_with_len from (to - from)))) }
        ensures err { OnErr result ((es : List (Emission ℕ ℤ)) → L.stands out.old es
            → (n : ℕ) × L.stands out.new
            (es ++ take n (flat_map (spread_emits self.now.rows.means.now self.now.rows.grid.now) (range_with_len from (to - from))))) }
        ensures origin { L.same_origin out.old out.new }
    {
        if out.spares_all() {
            let columns = columns_between(
                alloc,
                self.rows.grid,
                self.rows.means.as_slice(),
                from,
                to,
            )?;
            if let Some(columns) = columns {
                return emit_columns(alloc, &columns, out);
            }
        }
        self.rows.emit_items(alloc, from, to, out)
    }
}

impl<'a> Items for Deviations<'a> {
    type Value = i64;

    ghost count = { λ d. length d.rows.grid.now };

    ghost emits = { λ d i. spread_emits d.rows.means.now d.rows.grid.now i };

    fn emit_item<L: Local<Key = NumKey, Value = i64>>(
        &self,
        alloc: Global,
        item: u64,
        out: &mut L,
    ) -> Result<(), Memory> {
        self.rows.emit_item(alloc, item, out)
    }

    fn emit_items<L: Local<Key = NumKey, Value = i64>>(
        &self,
        alloc: Global,
        from: u64,
        to: u64,
        out: &mut L,
    ) -> Result<(), Memory> {
        let mut at = from;
        while at < to {
            let end = at + BLOCK.min(to - at);
            self.emit_block(alloc, at, end, out)?;
            at = end;
        }
        Ok(())
    }
}

/// Emits the products of each column with itself and each later one, each pair's as a run. Takes no memory.
fn emit_columns<L: Local<Key = NumKey, Value = i64>>(
    alloc: Global,
    columns: &[Column],
    out: &mut L,
) -> Result<(), Memory>
    requires mild { All AreMild columns.now }
    requires narrow { length columns.now ≤ 1024 }
    requires spares { (k : ℕ) → IsTrue (L.spares out.old k) }
    ensures ok { OnOk result ((es : List (Emission ℕ ℤ)) → L.stands out.old es
        → L.stands out.new (es ++ flat_map (column_runs columns.now) (range_with_len 0 (length columns.now)))) }
    ensures no_memory { IsOk result }
    ensures origin { L.same_origin out.old out.new }
{
    for i in 0..columns.len() {
        emit_runs(alloc, columns, i, out)?;
    }
    Ok(())
}

/// Emits the products of a column with itself and each later one, each pair's as a run. Takes no memory.
fn emit_runs<L: Local<Key = NumKey, Value = i64>>(
    alloc: Global,
    columns: &[Column],
    i: usize,
    out: &mut L,
) -> Result<(), Memory>
    requires mild { All AreMild columns.now }
    requires narrow { length columns.now ≤ 1024 }
    requires i { i < length columns.now }
    requires spares { (k : ℕ) → IsTrue (L.spares out.old k) }
    ensures ok { OnOk result ((es : List (Emission ℕ ℤ)) → L.stands out.old es → L.stands out.new (es ++ column_runs columns.now i)) }
    ensures no_memory { IsOk result }
    ensures spares { (k : ℕ) → IsTrue (L.spares out.new k) }
    ensures origin { L.same_origin out.old out.new }
{
    for j in i..columns.len() {
        let key = NumKey((i * columns.len() + j) as u64);
        out.emit_run(alloc, &key, &Products::of(&columns[i], &columns[j]))?;
    }
    Ok(())
}

/// Emits the products of a column with itself and each later one.
#[inline(always)]
fn emit_couples<L: Local<Key = NumKey, Value = i64>>(
    row: &[i32],
    means: &[i128],
    i: usize,
    out: &mut L,
) -> Result<(), Memory>
    requires row { All (λ z. nat_abs z ≤ greatest_element) row.now }
    requires means { All (λ z. nat_abs z ≤ greatest_element) means.now }
    requires alike { length means.now ≡ length row.now }
    requires narrow { length row.now ≤ 1024 }
    requires i { i < length row.now }
    ensures ok { OnOk result ((es : List (Emission ℕ ℤ)) → L.stands out.old es
        → L.stands out.new (es ++ flat_map (couple_emits means.now row.now i) (range_with_len i (length row.now - i)))) }
    ensures err { OnErr result ((es : List (Emission ℕ ℤ)) → L.stands out.old es
        → (n : ℕ) × L.stands out.new (es ++ take n (flat_map (couple_emits means.now row.now i) (range_with_len i (length row.now - i))))) }
    ensures origin { L.same_origin out.old out.new }
{
    let first = deviation(row, means, i);
    for j in i..row.len() {
        let product = product_within(first, deviation(row, means, j));
        emit_sum((i * row.len() + j) as u64, product, out)?;
    }
    Ok(())
}

/// The product of two deviations, where its magnitude is no larger than that of a value.
#[inline(always)]
fn product_within(a: i64, b: i64) -> Option<i64>
    requires a { nat_abs a ≤ 4294967294 }
    requires b { nat_abs b ≤ 4294967294 }
    ensures { result ≡ (if nat_le (nat_abs (a *ℤ b)) limit then Some (a *ℤ b) else None) }
{
    if a.unsigned_abs() * b.unsigned_abs() > LIMIT {
        return None;
    }
    Some(a * b)
}
