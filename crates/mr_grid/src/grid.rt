ghost use Rattle.std.specs.Prelude.{◌≡◌, ◌≤◌, ◌<◌, ◌+◌, ◌*◌, ◌^◌, ◌++◌, nat_abs, length, slice_get, flat_map, Some, All, IfOk, OnOk};
ghost use Rattle.std.specs.Fork.{slice_chunk};
ghost use Rattle.std.specs.List.{range_with_len};
ghost use Rattle.mr_defs.specs.Limits.{greatest_element};
ghost use Rattle.mr_items.specs.Grid.{columns_of};
ghost use Rattle.mr_grid.specs.Dense.{rows_of, column_in, turned_of, IsDense};

use mr_base::Memory;
use std::alloc::Global;
use std::marker::Model;

/// A row of numbers that stand row after row.
fn row_at(numbers: &[i32], r: usize, columns: usize) -> &[i32]
    requires { r * columns + columns ≤ length numbers.now }
    ensures { result.now ≡ slice_chunk numbers.now columns r }
{
    &numbers[r * columns..r * columns + columns]
}

/// Puts a column of numbers that stand row after row last.
fn push_column(
    turned: &mut Vec<i32>,
    numbers: &[i32],
    rows: usize,
    columns: usize,
    column: usize,
) -> Result<(), Memory>
    requires column { column < columns }
    requires rows { rows * columns ≤ length numbers.now }
    ensures { OnOk result (turned.new.items ≡ turned.old.items ++ column_in numbers.now columns rows column) }
{
    for r in 0..rows {
        turned.push(numbers[r * columns + column])?;
    }
    Ok(())
}

/// The columns of numbers that stand row after row, one after the other.
fn turned_numbers(
    alloc: Global,
    numbers: &[i32],
    rows: usize,
    columns: usize,
) -> Result<Vec<i32>, Memory>
    requires { rows * columns ≤ length numbers.now }
    ensures { IfOk result (λ turned. turned.items ≡ flat_map (column_in numbers.now columns rows) (range_with_len 0 columns)) }
{
    let mut turned = Vec::with_capacity(alloc, numbers.len())?;
    for column in 0..columns {
        push_column(&mut turned, numbers, rows, columns, column)?;
    }
    Ok(turned)
}

/// Numbers from -2147483647 to 2147483647 in rows of one length. A grid without rows has no columns, and each row has a number.
#[derive(Drop)]
pub struct Grid {
    numbers: Vec<i32>,
    rows: u64,
    columns: u32,
}

impl Model for Grid {
    ghost use Rattle.std.specs.Prelude.{List, ℤ};
    ghost use Rattle.mr_grid.specs.Dense.{rows_of, IsDense};

    ghost Value = { List (List ℤ) };

    ghost view = { λ g. rows_of g.numbers.items g.columns g.rows };

    ghost invariant = { λ g. IsDense g.numbers.items g.columns g.rows };
}

impl Grid {
    /// The grid of these numbers, row after row.
    pub(crate) fn of_numbers(numbers: Vec<i32>, rows: u64, columns: u32) -> Grid
        requires { IsDense numbers.items columns rows }
        ensures { result ≡ rows_of numbers.items columns rows }
    {
        Grid {
            numbers,
            rows,
            columns,
        }
    }

    /// The number of rows.
    pub fn rows(&self) -> u64
        ensures { result ≡ length self.now }
    {
        self.rows
    }

    /// The number of columns, which is 0 where there is no row.
    pub fn columns(&self) -> u32
        ensures { result ≡ columns_of self.now }
    {
        self.columns
    }

    /// The numbers of a row, in order.
    pub fn row(&self, r: u64) -> &[i32]
        requires { r < length self.now }
        ensures row { slice_get self.now r ≡ Some result.now }
        ensures length { length result.now ≡ columns_of self.now }
        ensures bounded { All (λ z. nat_abs z ≤ greatest_element) result.now }
    {
        row_at(&self.numbers, r as usize, self.columns as usize)
    }

    /// The grid whose rows are the columns of this one.
    pub fn turned(&self, alloc: Global) -> Result<Grid, Memory>
        requires { length self.now < 2 ^ 32 }
        ensures { IfOk result (λ grid. grid ≡ turned_of self.now) }
    {
        let numbers = turned_numbers(
            alloc,
            &self.numbers,
            self.rows as usize,
            self.columns as usize,
        )?;
        Ok(Grid::of_numbers(numbers, self.columns as u64, self.rows as u32))
    }
}
