ghost use Rattle.std.specs.Prelude.{◌≡◌, ◌≤◌, ℕ, nat_abs, length, flat_map, slice_index_or, All, IsTrue};
ghost use Rattle.std.specs.List.{range_with_len};
ghost use Rattle.mr_defs.specs.Folded.{limit};
ghost use Rattle.mr_defs.specs.Limits.{greatest_element};
ghost use Rattle.mr_defs.specs.Tasks as tasks;
ghost use Rattle.mr_items.specs.Grid.{columns_of};
ghost use Rattle.mr_items.specs.KMeans as items;
ghost use Rattle.mr_split.specs.Pieces.{AreSpans};
ghost use Rattle.mr_numeric.specs.Distances.{AreShort};
ghost use Rattle.mr_numeric.specs.Sums.{AreMeans};

use crate::distance::{are_short, distance};
use crate::means::Means;
use crate::spanned::{Items, Spanned};
use mr_base::{Memory, NumKey};
use mr_combine::Point;
use mr_container::{Local, Mapper};
use mr_grid::Grid;
use mr_split::Spans;
use std::alloc::Global;

/// The points that the rows of a grid are, beside the means of clusters. A point emits itself for the cluster whose mean is nearest, the
/// first of those that are equally near.
#[derive(Drop)]
pub struct Clustered<'a> {
    grid: &'a Grid,
    means: &'a Means,
    short: bool,
    ghost fit: { AreMeans (columns_of grid.now) means.now },
    ghost told: { IsTrue short → All AreShort means.now },
}

/// The clusters of points.
pub type KMeans<'a> = Spanned<Clustered<'a>>;

impl<'a> Spanned<Clustered<'a>> {
    /// The job over the points of this grid, cut into these spans, with these means. Takes no memory.
    pub fn new(grid: &'a Grid, means: &'a Means, spans: Spans) -> KMeans<'a>
        requires means { AreMeans (columns_of grid.now) means.now }
        requires spans { AreSpans (length grid.now) spans }
        ensures count { ⟦<KMeans<'a> as Mapper>⟧.task_count result ≡ length spans }
        ensures tasks { (t : ℕ) → ⟦<KMeans<'a> as Mapper>⟧.task_emissions result t
            ≡ tasks.task_emissions (items.kmeans_emits means.now grid.now) (range_with_len 0 (length grid.now))
            (slice_index_or spans t (0, 0)) }
        ensures whole { flat_map (⟦<KMeans<'a> as Mapper>⟧.task_emissions result)
            (range_with_len 0 (⟦<KMeans<'a> as Mapper>⟧.task_count result))
            ≡ items.kmeans_emissions means.now grid.now }
    {
        let short = means.are_short();
        Spanned::over(Clustered { grid, means, short }, spans)
    }
}

impl<'a> Items for Clustered<'a> {
    type Value = Point;

    ghost count = { λ n. length n.grid.now };

    ghost emits = { λ n i. items.kmeans_emits n.means.now n.grid.now i };

    fn emit_item<L: Local<Key = NumKey, Value = Point>>(
        &self,
        alloc: Global,
        item: u64,
        out: &mut L,
    ) -> Result<(), Memory> {
        let row = self.grid.row(item);
        let short = self.short && are_short(row);
        let cluster = nearest_mean(self.means, row, short);
        let point = Point::of(alloc, row)?;
        out.emit(NumKey(cluster), point)
    }
}

/// The number of the first mean that is as near to the point as each other. Told are coordinates that are all short.
fn nearest_mean(means: &Means, point: &[i32], short: bool) -> u64
    requires means { AreMeans (length point.now) means.now }
    requires point { All (λ z. nat_abs z ≤ greatest_element) point.now }
    requires short_point { IsTrue short → AreShort point.now }
    requires short_means { IsTrue short → All AreShort means.now }
    ensures nearest { result ≡ items.nearest means.now point.now }
    ensures key { result ≤ limit }
{
    let mut least = u128::MAX;
    let mut first = 0;
    for cluster in 0..means.len() {
        let far = distance(point, means.mean(cluster).near(), short);
        if far < least {
            least = far;
            first = cluster as u64;
        }
    }
    first
}
