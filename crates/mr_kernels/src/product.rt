ghost use Rattle.std.specs.Prelude.{◌≡◌, ◌≤◌, ◌<◌, ◌*◌, ◌*ℤ◌, pos, length, slice_index_or, nat_abs, All};
ghost use Rattle.mr_defs.specs.Folded.{limit, total};
ghost use Rattle.mr_defs.specs.Limits.{greatest_element};
ghost use Rattle.mr_kernels.specs.Product.{products, pair_sum_of};

/// The most that the magnitudes of the products may add up to.
const LIMIT: u64 = 9223372036854775807;

/// The largest magnitude of the numbers, or 0.
fn largest(numbers: &[i32]) -> u64
    requires { All (λ z. nat_abs z ≤ greatest_element) numbers.now }
    ensures most { result ≤ greatest_element }
    ensures bound { All (λ z. nat_abs z ≤ result) numbers.now }
{
    let mut most = 0;
    for number in numbers {
        let size = number.unsigned_abs();
        if size > most {
            most = size;
        }
    }
    most as u64
}

/// The product of the numbers at a place.
fn product_at(a: &[i32], b: &[i32], at: usize) -> i64
    requires left_in { at < length a.now }
    requires right_in { at < length b.now }
    ensures { result ≡ slice_index_or a.now at (pos 0) *ℤ slice_index_or b.now at (pos 0) }
{
    a[at] as i64 * b[at] as i64
}

/// The sum of the products of two rows whose magnitudes are at most `left` and `right`, too small to go past the limit.
fn plain_sum(a: &[i32], b: &[i32], left: u64, right: u64) -> i64
    requires lengths { length a.now ≡ length b.now }
    requires left { All (λ z. nat_abs z ≤ left) a.now }
    requires right { All (λ z. nat_abs z ≤ right) b.now }
    requires bound { length a.now * (left * right) ≤ limit }
    ensures { result ≡ total (products a.now b.now) }
{
    let mut sum = 0;
    for i in 0..a.len() {
        sum += product_at(a, b, i);
    }
    sum
}

/// The sum of the products of two rows, with their magnitudes added up beside it.
fn exact_sum(a: &[i32], b: &[i32]) -> Option<i64>
    requires lengths { length a.now ≡ length b.now }
    requires left { All (λ z. nat_abs z ≤ greatest_element) a.now }
    requires right { All (λ z. nat_abs z ≤ greatest_element) b.now }
    ensures { result ≡ pair_sum_of a.now b.now }
{
    let mut sum = 0i64;
    let mut sizes = 0u64;
    for i in 0..a.len() {
        let product = product_at(a, b, i);
        sizes += product.unsigned_abs();
        if sizes > LIMIT {
            return None;
        }
        sum += product;
    }
    Some(sum)
}

/// The sum of the products of the numbers at the same place, or None exactly where the magnitudes of the products add up past
/// 9223372036854775807.
pub fn pair_sum(a: &[i32], b: &[i32]) -> Option<i64>
    requires lengths { length a.now ≡ length b.now }
    requires left { All (λ z. nat_abs z ≤ greatest_element) a.now }
    requires right { All (λ z. nat_abs z ≤ greatest_element) b.now }
    ensures { result ≡ pair_sum_of a.now b.now }
{
    let left = largest(a);
    let right = largest(b);
    // rows of small numbers need no magnitudes on the way
    if let Some(most) = (left * right).checked_mul(a.len() as u64)
        && most <= LIMIT
    {
        return Some(plain_sum(a, b, left, right));
    }
    exact_sum(a, b)
}
