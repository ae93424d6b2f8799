ghost use Rattle.std.specs.Prelude.{◌≡◌, ◌≤◌, ◌<◌, ◌*◌, ◌≤ℤ◌, ℕ, pos, nat_abs, List, [], ◌++◌, length, get_or, All, IfOk, OnOk};
ghost use Rattle.std.specs.Int.{int_div_euclid};
ghost use Rattle.mr_defs.specs.Limits.{greatest_element};
ghost use Rattle.mr_items.specs.Pca as items;
ghost use Rattle.mr_numeric.specs.Sums.{IsColumnSum};

use mr_base::{Answer, Memory, NumKey, Rows};
use std::alloc::Global;
use std::marker::Model;

/// The means of the columns of a grid, rounded down, seen as the list of them.
#[derive(Drop)]
pub struct ColumnMeans {
    means: Vec<i128>,
}

impl Model for ColumnMeans {
    ghost use Rattle.std.specs.Prelude.{List, ℤ};

    ghost Value = { List ℤ };

    ghost view = { λ m. m.means.items };
}

impl ColumnMeans {
    /// The means.
    pub fn as_slice(&self) -> &[i128]
        ensures { result.now ≡ self.now }
    {
        self.means.as_slice()
    }
}

/// The means of columns from the rows of their sums, each divided by the number of points and rounded down.
pub fn column_means(alloc: Global, rows: &Rows<NumKey>, points: u64) -> Result<ColumnMeans, Memory>
    requires one { All (λ row. length row.1 ≡ 1) rows.now }
    requires some { 1 ≤ length rows.now → 1 ≤ points }
    ensures means { IfOk result (λ means. means ≡ items.column_means rows.now points) }
    ensures small { IfOk result (λ means. All (IsColumnSum points) rows.now → All (λ z. nat_abs z ≤ greatest_element) means) }
{
    let mut means = Vec::with_capacity(alloc, rows.len())?;
    for row in rows.entries() {
        means.push(column_mean(&row.1, points))?;
    }
    Ok(ColumnMeans { means })
}

/// The mean of a column with this sum of so many elements.
fn column_mean(sum: &Answer, points: u64) -> i128
    requires one { length sum.now ≡ 1 }
    requires some { 1 ≤ points }
    ensures { result ≡ int_div_euclid (get_or sum.now 0 (pos 0)) (pos points) }
{
    sum.number(0).div_euclid(points as i128)
}

/// A sum divided by a number of terms and rounded down, where no term has a magnitude above 2147483647.
pub(crate) fn mean_of(sum: i128, count: i128) -> i32
    requires some { pos 1 ≤ℤ count }
    requires small { nat_abs sum ≤ greatest_element * nat_abs count }
    ensures mean { result ≡ int_div_euclid sum count }
    ensures small { nat_abs result ≤ greatest_element }
{
    sum.div_euclid(count) as i32
}
