ghost use Rattle.std.specs.Prelude.{◌≡◌, ◌≤◌, true, length, nat_abs};
ghost use Rattle.std.specs.List.{All};
ghost use Rattle.mr_defs.specs.Folded.{total};
ghost use Rattle.mr_defs.specs.Limits.{greatest_element};
ghost use Rattle.mr_kernels.specs.Product.{products, pair_sum_of};
ghost use Rattle.mr_numeric.specs.Narrow.{AreNarrow};

use mr_grid::Grid;
use mr_kernels::pair_sum;

/// The largest magnitude of which the products of 1024 pairs add up to less than 2147483648.
const NARROW: u32 = 1448;

/// Whether no magnitude of the numbers is over 1448.
fn is_narrow(numbers: &[i32]) -> bool
    ensures { result ≡ true → All (λ z. nat_abs z ≤ 1448) numbers.now }
{
    for number in numbers {
        if number.unsigned_abs() > NARROW {
            return false;
        }
    }
    true
}

/// Whether no magnitude of the grid's numbers is over 1448.
pub(crate) fn are_narrow(grid: &Grid) -> bool
    ensures { result ≡ true → AreNarrow grid.now }
{
    for row in 0..grid.rows() {
        if !is_narrow(grid.row(row)) {
            return false;
        }
    }
    true
}

/// The sum of the products of two rows of at most 1024 numbers, whose magnitudes are at most 1448.
fn narrow_sum(left: &[i32], right: &[i32]) -> i32
    requires lengths { length left.now ≡ length right.now }
    requires few { length left.now ≤ 1024 }
    requires left { All (λ z. nat_abs z ≤ 1448) left.now }
    requires right { All (λ z. nat_abs z ≤ 1448) right.now }
    ensures { result ≡ total (products left.now right.now) }
{
    let mut sum = 0i32;
    for i in 0..left.len() {
        sum += left[i] * right[i];
    }
    sum
}

/// The sum of the products of two rows, or None exactly where their magnitudes add up past 9223372036854775807. Where the rows are known to
/// be narrow it is a sum of 32 bits.
#[inline(always)]
pub(crate) fn row_sum(left: &[i32], right: &[i32], narrow: bool) -> Option<i64>
    requires lengths { length left.now ≡ length right.now }
    requires left { All (λ z. nat_abs z ≤ greatest_element) left.now }
    requires right { All (λ z. nat_abs z ≤ greatest_element) right.now }
    requires few { narrow ≡ true → length left.now ≤ 1024 }
    requires narrow_left { narrow ≡ true → All (λ z. nat_abs z ≤ 1448) left.now }
    requires narrow_right { narrow ≡ true → All (λ z. nat_abs z ≤ 1448) right.now }
    ensures { result ≡ pair_sum_of left.now right.now }
{
    if narrow {
        return Some(narrow_sum(left, right) as i64);
    }
    pair_sum(left, right)
}
