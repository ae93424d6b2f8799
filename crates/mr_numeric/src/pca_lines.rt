ghost use Rattle.std.specs.Prelude.{◌≤◌, ◌<◌, ◌*◌, ◌++◌, ◌≡◌, pos, length, get_or, flat_map, slice_index_or, IfOk, OnOk};
ghost use Rattle.std.specs.List.{enumerate_from, range_with_len};
ghost use Rattle.mr_items.specs.Pca as items;
ghost use Rattle.mr_numeric.specs.Couples.{column_lines, couple_names, couple_text};
ghost use Rattle.mr_numeric.specs.Sums.{AreSums};

use crate::means_of_columns::ColumnMeans;
use crate::sums::sums_below;
use mr_base::{Memory, NumKey, Rows, Text};
use std::alloc::Global;

/// The text of how the columns of a grid of so many points vary together, from the means of the columns and the rows of the sums of the
/// products of what the elements differ from these by: a line `mean I M` for each column, then a line `cov I J S/N` for each two columns
/// with I at most J, where S is their sum, or 0 where it has no row, and N the number of points less one. The fractions are not reduced.
pub fn pca_text(
    alloc: Global,
    points: u64,
    means: &ColumnMeans,
    rows: &Rows<NumKey>,
) -> Result<Text, Memory>
    requires sums { AreSums rows.now }
    requires few { length means.now ≤ 1024 }
    ensures { IfOk result (λ text. text ≡ items.pca_text points means.now rows.now) }
{
    let mut text = Text::new(alloc);
    let each = means.as_slice();
    push_means(&mut text, each)?;
    let sums = sums_below(alloc, rows, each.len() * each.len())?;
    push_columns(&mut text, points, each.len(), &sums)?;
    Ok(text)
}

/// Appends a line for each mean.
fn push_means(text: &mut Text, means: &[i128]) -> Result<(), Memory>
    ensures { OnOk result (text.new ≡ text.old ++ flat_map items.mean_line (enumerate_from 0 means.now)) }
{
    for column in 0..means.len() {
        push_mean(text, means, column)?;
    }
    Ok(())
}

/// Appends the line of a column's mean.
fn push_mean(text: &mut Text, means: &[i128], column: usize) -> Result<(), Memory>
    requires { column < length means.now }
    ensures { OnOk result (text.new ≡ text.old ++ items.mean_line (column, slice_index_or means.now column (pos 0))) }
{
    text.push(b"mean ")?;
    text.push_natural(column as u64)?;
    text.push(b" ")?;
    text.push_number(means[column])?;
    text.push(b"\n")
}

/// Appends the lines of each column with itself and each later one.
fn push_columns(text: &mut Text, points: u64, columns: usize, sums: &[i128]) -> Result<(), Memory>
    requires sums { length sums.now ≡ columns * columns }
    requires few { columns ≤ 1024 }
    ensures { OnOk result (text.new ≡ text.old
        ++ flat_map (column_lines points columns (λ k. get_or sums.now k (pos 0))) (range_with_len 0 columns)) }
{
    for i in 0..columns {
        push_couples(text, points, columns, sums, i)?;
    }
    Ok(())
}

/// Appends the lines of a column with itself and each later one.
fn push_couples(
    text: &mut Text,
    points: u64,
    columns: usize,
    sums: &[i128],
    i: usize,
) -> Result<(), Memory>
    requires sums { length sums.now ≡ columns * columns }
    requires few { columns ≤ 1024 }
    requires i { i < columns }
    ensures { OnOk result (text.new ≡ text.old ++ column_lines points columns (λ k. get_or sums.now k (pos 0)) i) }
{
    for j in i..columns {
        push_couple(text, i, j, sums[i * columns + j], points)?;
    }
    Ok(())
}

/// Appends the line of two columns with this sum.
fn push_couple(text: &mut Text, i: usize, j: usize, sum: i128, points: u64) -> Result<(), Memory>
    ensures { OnOk result (text.new ≡ text.old ++ couple_text points i j sum) }
{
    push_names(text, i, j)?;
    text.push_number(sum)?;
    text.push(b"/")?;
    text.push_natural(points.saturating_sub(1))?;
    text.push(b"\n")
}

/// Appends what stands before the sum in the line of two columns.
fn push_names(text: &mut Text, i: usize, j: usize) -> Result<(), Memory>
    ensures { OnOk result (text.new ≡ text.old ++ couple_names i j) }
{
    text.push(b"cov ")?;
    text.push_natural(i as u64)?;
    text.push(b" ")?;
    text.push_natural(j as u64)?;
    text.push(b" ")
}
