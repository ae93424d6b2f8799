ghost use Rattle.std.specs.Prelude.{◌≡◌, ◌≤◌, ◌<◌, ◌++◌, nat_abs, length, map, take, slice_index_or, [], All, IfOk, IsTrue};
ghost use Rattle.std.specs.Bool.{Decides};
ghost use Rattle.mr_defs.specs.Folded.{limit};
ghost use Rattle.mr_defs.specs.Limits.{greatest_element};
ghost use Rattle.mr_items.specs.Grid.{columns_of};
ghost use Rattle.mr_items.specs.KMeans.{means_eq};
ghost use Rattle.mr_numeric.specs.Distances.{AreShort};
ghost use Rattle.mr_numeric.specs.Sums.{AreMeans};

use crate::distance::are_short;
use mr_base::Memory;
use mr_grid::Grid;
use std::alloc::Global;
use std::marker::Model;

/// The mean of a cluster, seen as the list of its coordinates.
///
/// They are numbers of any size. Where all have 32 bits, they stand a second time, so that distances are read from a quarter of the memory.
#[derive(Drop)]
pub(crate) struct Mean {
    coordinates: Vec<i128>,
    near: Vec<i32>,
}

impl Model for Mean {
    ghost use Rattle.std.specs.Prelude.{◌≡◌, ◌≤◌, ℤ, nat_abs, List, All};
    ghost use Rattle.mr_defs.specs.Limits.{greatest_element};

    ghost Value = { List ℤ };

    ghost view = { λ m. m.coordinates.items };

    ghost invariant = { λ m. All (λ z. nat_abs z ≤ greatest_element) m.coordinates.items → m.near.items ≡ m.coordinates.items };
}

impl Mean {
    /// The mean that has these coordinates.
    pub(crate) fn of(alloc: Global, coordinates: Vec<i128>) -> Result<Mean, Memory>
        ensures { IfOk result (λ mean. mean ≡ coordinates.items) }
    {
        let near = nearby(alloc, &coordinates)?;
        Ok(Mean { coordinates, near })
    }

    /// The coordinates.
    pub(crate) fn coordinates(&self) -> &[i128]
        ensures { result.now ≡ self.now }
    {
        self.coordinates.as_slice()
    }

    /// Whether both have the same coordinates.
    fn same(&self, other: &Mean) -> bool
        ensures { Decides result (self.now ≡ other.now) }
    {
        self.coordinates() == other.coordinates()
    }

    /// The coordinates of a mean of the points of a grid.
    pub(crate) fn near(&self) -> &[i32]
        requires { All (λ z. nat_abs z ≤ greatest_element) self.now }
        ensures { result.now ≡ self.now }
    {
        self.near.as_slice()
    }
}

/// The same coordinates where each has 32 bits.
fn nearby(alloc: Global, coordinates: &[i128]) -> Result<Vec<i32>, Memory>
    ensures { IfOk result (λ near. All (λ z. nat_abs z ≤ greatest_element) coordinates.now → near.items ≡ coordinates.now) }
{
    let mut near = Vec::with_capacity(alloc, coordinates.len())?;
    for coordinate in coordinates {
        near.push(narrowed(*coordinate))?;
    }
    Ok(near)
}

/// The same number, or 0 where it has more than 32 bits.
fn narrowed(number: i128) -> i32
    ensures { nat_abs number ≤ greatest_element → result ≡ number }
{
    match i32::try_from(number) {
        Ok(narrow) => narrow,
        Err(_) => 0,
    }
}

/// The point that a row of a grid is, as a mean.
fn mean_of_row(alloc: Global, row: &[i32]) -> Result<Mean, Memory>
    requires { All (λ z. nat_abs z ≤ greatest_element) row.now }
    ensures { IfOk result (λ mean. mean ≡ row.now) }
{
    let mut coordinates = Vec::with_capacity(alloc, row.len())?;
    for number in row {
        coordinates.push(*number as i128)?;
    }
    Mean::of(alloc, coordinates)
}

/// The means of clusters, seen as a list of lists of numbers, one for each cluster.
#[derive(Drop)]
pub struct Means {
    means: Vec<Mean>,
}

impl Model for Means {
    ghost use Rattle.std.specs.Prelude.{List, ℤ};

    ghost Value = { List (List ℤ) };

    ghost view = { λ m. m.means.items };
}

impl Means {
    /// The first points of a grid, one for each cluster.
    pub fn first(alloc: Global, grid: &Grid, clusters: u32) -> Result<Means, Memory>
        requires there { clusters ≤ length grid.now }
        ensures first { IfOk result (λ means. means ≡ take clusters grid.now) }
        ensures fit { IfOk result (AreMeans (columns_of grid.now)) }
    {
        let mut means = Vec::with_capacity(alloc, clusters as usize)?;
        for row in 0..clusters {
            means.push(mean_of_row(alloc, grid.row(row as u64))?)?;
        }
        Ok(Means { means })
    }

    /// The means of these clusters.
    pub(crate) fn of(means: Vec<Mean>) -> Means
        ensures { result ≡ means.items }
    {
        Means { means }
    }

    /// How many clusters there are.
    pub(crate) fn len(&self) -> usize
        ensures len { result ≡ length self.now }
        ensures few { result ≤ limit }
    {
        self.means.len()
    }

    /// The mean of a cluster.
    #[inline(always)]
    pub(crate) fn mean(&self, cluster: usize) -> &Mean
        requires { cluster < length self.now }
        ensures { result.now ≡ slice_index_or self.now cluster [] }
    {
        &self.means[cluster]
    }

    /// Whether both are the same means.
    pub fn same(&self, other: &Means) -> bool
        ensures same { result ≡ means_eq self.now other.now }
        ensures exact { Decides result (self.now ≡ other.now) }
    {
        if self.len() != other.len() {
            return false;
        }
        for cluster in 0..self.len() {
            if !self.mean(cluster).same(other.mean(cluster)) {
                return false;
            }
        }
        true
    }

    /// Whether all coordinates of these means are short.
    pub(crate) fn are_short(&self) -> bool
        requires { All (All (λ z. nat_abs z ≤ greatest_element)) self.now }
        ensures { IsTrue result → All AreShort self.now }
    {
        for cluster in 0..self.len() {
            if !are_short(self.mean(cluster).near()) {
                return false;
            }
        }
        true
    }
}
