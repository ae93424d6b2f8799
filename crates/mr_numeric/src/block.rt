ghost use Rattle.std.specs.Prelude.{◌≡◌, ◌≤◌, ◌<◌, ◌-◌, ◌*ℤ◌, pos, nat_abs, List, length, slice_index_or, IfOk, IfSome};
ghost use Rattle.std.specs.List.{All};
ghost use Rattle.mr_defs.specs.Folded.{limit};
ghost use Rattle.mr_defs.specs.Limits.{greatest_element};
ghost use Rattle.mr_items.specs.Grid.{columns_of};
ghost use Rattle.mr_items.specs.Pca.{deviation};
ghost use Rattle.mr_numeric.specs.Blocks.{AreMild, block_of, deviations_of, products_of};

use mr_base::Memory;
use mr_combine::Run;
use mr_grid::Grid;
use std::alloc::Global;
use std::marker::Model;

/// The greatest magnitude of a number of a block: 32 bits hold it, and a product of two is within the limit of a value.
const MILD: u64 = 2147483647;

/// What the elements of a column differ from its mean by, in the rows of a block, seen as the list of them.
#[derive(Drop)]
pub(crate) struct Column {
    deviations: Vec<i32>,
}

impl Model for Column {
    ghost use Rattle.std.specs.Prelude.{List, ℤ};

    ghost Value = { List ℤ };

    ghost view = { λ c. c.deviations.items };
}

impl Column {
    /// A column of the rows from one number up to another; None where what an element differs from the mean by is not mild.
    fn of(
        alloc: Global,
        grid: &Grid,
        means: &[i128],
        from: u64,
        to: u64,
        j: usize,
    ) -> Result<Option<Column>, Memory>
        requires means { All (λ z. nat_abs z ≤ greatest_element) means.now }
        requires alike { length means.now ≡ columns_of grid.now }
        requires j { j < columns_of grid.now }
        requires order { from ≤ to }
        requires inside { to ≤ length grid.now }
        ensures column { IfOk result (λ o. IfSome o (λ column. column ≡ deviations_of means.now grid.now from (to - from) j)) }
        ensures mild { IfOk result (λ o. IfSome o AreMild) }
    {
        let mut deviations = Vec::with_capacity(alloc, (to - from) as usize)?;
        for r in from..to {
            let apart = deviation(grid.row(r), means, j);
            if apart.unsigned_abs() > MILD {
                return Ok(None);
            }
            deviations.push(apart as i32)?;
        }
        Ok(Some(Column { deviations }))
    }

    /// The numbers.
    fn as_slice(&self) -> &[i32]
        ensures { result.now ≡ self.now }
    {
        self.deviations.as_slice()
    }
}

/// All columns of the rows from one number up to another; None where what an element differs from its mean by is not mild.
pub(crate) fn columns_between(
    alloc: Global,
    grid: &Grid,
    means: &[i128],
    from: u64,
    to: u64,
) -> Result<Option<Vec<Column>>, Memory>
    requires means { All (λ z. nat_abs z ≤ greatest_element) means.now }
    requires alike { length means.now ≡ columns_of grid.now }
    requires order { from ≤ to }
    requires inside { to ≤ length grid.now }
    ensures columns { IfOk result (λ o. IfSome o (λ columns. columns.items ≡ block_of means.now grid.now from (to - from))) }
    ensures mild { IfOk result (λ o. IfSome o (λ columns. All AreMild columns.items)) }
{
    let mut columns = Vec::with_capacity(alloc, means.len())?;
    for j in 0..means.len() {
        let Some(column) = Column::of(alloc, grid, means, from, to, j)? else {
            return Ok(None);
        };
        columns.push(column)?;
    }
    Ok(Some(columns))
}

/// What an element differs from its column's mean by.
#[inline(always)]
pub(crate) fn deviation(row: &[i32], means: &[i128], j: usize) -> i64
    requires row { All (λ z. nat_abs z ≤ greatest_element) row.now }
    requires means { All (λ z. nat_abs z ≤ greatest_element) means.now }
    requires alike { length means.now ≡ length row.now }
    requires j { j < length row.now }
    ensures deviation { result ≡ deviation means.now row.now j }
    ensures small { nat_abs result ≤ 4294967294 }
{
    row[j] as i64 - means[j] as i64
}

/// The products of the numbers of two columns in the same row, one after the other.
#[derive(Drop)]
pub(crate) struct Products<'a> {
    left: &'a [i32],
    right: &'a [i32],
    ghost mild_left: { AreMild left.now },
    ghost mild_right: { AreMild right.now },
}

impl<'a> Products<'a> {
    /// Of these two columns.
    pub(crate) fn of(left: &'a Column, right: &'a Column) -> Products<'a>
        requires left { AreMild left.now }
        requires right { AreMild right.now }
        ensures { ⟦<Products<'a> as Run>⟧.values result ≡ products_of left.now right.now }
    {
        Products {
            left: left.as_slice(),
            right: right.as_slice(),
        }
    }
}

impl<'a> Run for Products<'a> {
    type Value = i64;

    ghost values = { λ p. products_of p.left.now p.right.now };

    #[inline(always)]
    fn len(&self) -> usize {
        self.left.len().min(self.right.len())
    }

    #[inline(always)]
    fn value(&self, at: usize) -> i64 {
        product_at(self.left, self.right, at)
    }
}

/// The product of the numbers at a place.
#[inline(always)]
fn product_at(left: &[i32], right: &[i32], at: usize) -> i64
    requires left_in { at < length left.now }
    requires right_in { at < length right.now }
    requires left { AreMild left.now }
    requires right { AreMild right.now }
    ensures product { result ≡ slice_index_or left.now at (pos 0) *ℤ slice_index_or right.now at (pos 0) }
    ensures small { nat_abs result ≤ limit }
{
    left[at] as i64 * right[at] as i64
}
