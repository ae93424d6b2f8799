ghost use Rattle.std.specs.Prelude.{◌≡◌, ◌≤◌, ◌<◌, ◌++◌, ◌*ℤ◌, [], ℕ, ℤ, pos, true, List, length, nat_abs, take, flat_map, slice_index_or};
ghost use Rattle.std.specs.Prelude.{OnOk, OnErr};
ghost use Rattle.std.specs.List.{range_with_len};
ghost use Rattle.mr_defs.specs.Emission.{Emission};
ghost use Rattle.mr_defs.specs.Folded.{limit};
ghost use Rattle.mr_defs.specs.Limits.{greatest_element};
ghost use Rattle.mr_defs.specs.Tasks as tasks;
ghost use Rattle.mr_items.specs.Grid.{columns_of};
ghost use Rattle.mr_items.specs.LinearRegression.{is_regression_shape, point_emits, linear_regression_emits, linear_regression_emissions};
ghost use Rattle.mr_split.specs.Pieces.{AreSpans};

use crate::pairs::emit_pairs;
use crate::spanned::{Items, Spanned};
use mr_base::{Memory, NumKey};
use mr_container::{Local, Mapper};
use mr_grid::Grid;
use mr_split::Spans;
use std::alloc::Global;

/// The rows x, y of a grid of two columns. A row emits 1 for key 0, x for key 1, y for key 2, x times x for key 3, y times y for key 4 and
/// x times y for key 5.
#[derive(Drop)]
pub struct Points<'a> {
    grid: &'a Grid,
    ghost shape: { is_regression_shape grid.now ≡ true },
}

/// The sums that a line through points follows from.
pub type Regression<'a> = Spanned<Points<'a>>;

impl<'a> Spanned<Points<'a>> {
    /// The job over the rows of this grid, cut into these spans. Takes no memory.
    pub fn new(grid: &'a Grid, spans: Spans) -> Regression<'a>
        requires shape { is_regression_shape grid.now ≡ true }
        requires spans { AreSpans (length grid.now) spans }
        ensures count { ⟦<Regression<'a> as Mapper>⟧.task_count result ≡ length spans }
        ensures tasks { (t : ℕ) → ⟦<Regression<'a> as Mapper>⟧.task_emissions result t
            ≡ tasks.task_emissions (linear_regression_emits grid.now) (range_with_len 0 (length grid.now)) (slice_index_or spans t (0, 0)) }
        ensures whole { flat_map (⟦<Regression<'a> as Mapper>⟧.task_emissions result)
            (range_with_len 0 (⟦<Regression<'a> as Mapper>⟧.task_count result)) ≡ linear_regression_emissions grid.now }
    {
        Spanned::over(Points { grid }, spans)
    }
}

impl<'a> Items for Points<'a> {
    type Value = i64;

    ghost count = { λ p. length p.grid.now };

    ghost emits = { λ p i. linear_regression_emits p.grid.now i };

    fn emit_item<L: Local<Key = NumKey, Value = i64>>(
        &self,
        _alloc: Global,
        item: u64,
        out: &mut L,
    ) -> Result<(), Memory> {
        let (x, y) = coordinates(self.grid, item);
        emit_point(x, y, out)
    }
}

/// The numbers of a row of a grid of two columns.
#[inline(always)]
fn coordinates(grid: &Grid, row: u64) -> (i64, i64)
    requires row { row < length grid.now }
    requires columns { columns_of grid.now ≡ 2 }
    ensures x { result.0 ≡ slice_index_or (slice_index_or grid.now row []) 0 (pos 0) }
    ensures y { result.1 ≡ slice_index_or (slice_index_or grid.now row []) 1 (pos 0) }
    ensures small { (nat_abs result.0 ≤ greatest_element) × (nat_abs result.1 ≤ greatest_element) }
{
    let row = grid.row(row);
    (row[0] as i64, row[1] as i64)
}

/// Emits a point.
#[inline(always)]
fn emit_point<L: Local<Key = NumKey, Value = i64>>(
    x: i64,
    y: i64,
    out: &mut L,
) -> Result<(), Memory>
    requires x { nat_abs x ≤ greatest_element }
    requires y { nat_abs y ≤ greatest_element }
    ensures ok { OnOk result ((es : List (Emission ℕ ℤ)) → L.stands out.old es → L.stands out.new (es ++ point_emits x y)) }
    ensures err { OnErr result
        ((es : List (Emission ℕ ℤ)) → L.stands out.old es → (n : ℕ) × L.stands out.new (es ++ take n (point_emits x y))) }
    ensures origin { L.same_origin out.old out.new }
{
    let xx = product(x, x);
    let yy = product(y, y);
    let xy = product(x, y);
    emit_pairs(&[(0, 1), (1, x), (2, y), (3, xx), (4, yy), (5, xy)], out)
}

/// The product of two coordinates.
#[inline(always)]
fn product(x: i64, y: i64) -> i64
    requires x { nat_abs x ≤ greatest_element }
    requires y { nat_abs y ≤ greatest_element }
    ensures product { result ≡ x *ℤ y }
    ensures small { nat_abs result ≤ limit }
{
    x * y
}
