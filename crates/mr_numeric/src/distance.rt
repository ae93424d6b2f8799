ghost use Rattle.std.specs.Prelude.{◌≡◌, ◌≤◌, ◌<◌, ◌*◌, ◌-ℤ◌, pos, nat_abs, length, slice_index_or, All, IsTrue};
ghost use Rattle.mr_defs.specs.Limits.{greatest_element};
ghost use Rattle.mr_items.specs.KMeans as items;
ghost use Rattle.mr_numeric.specs.Distances.{AreShort};

/// The largest magnitude of a short coordinate, and the most coordinates that a distance of 64 bits may have.
const SHORT: u32 = 67108863;

const FEW: usize = 1024;

/// Whether all coordinates are short.
#[inline(always)]
pub(crate) fn are_short(coordinates: &[i32]) -> bool
    requires { All (λ z. nat_abs z ≤ greatest_element) coordinates.now }
    ensures { IsTrue result → AreShort coordinates.now }
{
    coordinates.iter().all(|z| z.unsigned_abs() <= SHORT)
}

/// The square of what two short coordinates differ by.
#[inline(always)]
fn short_square(point: &[i32], mean: &[i32], at: usize) -> u64
    requires point { AreShort point.now }
    requires mean { AreShort mean.now }
    requires alike { length point.now ≡ length mean.now }
    requires at { at < length point.now }
    ensures square { result ≡ nat_abs (slice_index_or point.now at (pos 0) -ℤ slice_index_or mean.now at (pos 0))
        * nat_abs (slice_index_or point.now at (pos 0) -ℤ slice_index_or mean.now at (pos 0)) }
    ensures small { result ≤ 18014397972611076 }
{
    let apart = (point[at] - mean[at]).unsigned_abs() as u64;
    apart * apart
}

/// The distance of two points of up to 1024 short coordinates, which 64 bits hold.
#[inline(always)]
fn short_distance(point: &[i32], mean: &[i32]) -> u64
    requires point { AreShort point.now }
    requires mean { AreShort mean.now }
    requires alike { length point.now ≡ length mean.now }
    requires few { length point.now ≤ 1024 }
    ensures { result ≡ items.distance point.now mean.now }
{
    let mut sum = 0;
    for at in 0..point.len() {
        sum += short_square(point, mean, at);
    }
    sum
}

/// The square of what two coordinates differ by.
#[inline(always)]
fn square(point: &[i32], mean: &[i32], at: usize) -> u64
    requires point { All (λ z. nat_abs z ≤ greatest_element) point.now }
    requires mean { All (λ z. nat_abs z ≤ greatest_element) mean.now }
    requires alike { length point.now ≡ length mean.now }
    requires at { at < length point.now }
    ensures { result ≡ nat_abs (slice_index_or point.now at (pos 0) -ℤ slice_index_or mean.now at (pos 0))
        * nat_abs (slice_index_or point.now at (pos 0) -ℤ slice_index_or mean.now at (pos 0)) }
{
    let apart = (point[at] as i64 - mean[at] as i64).unsigned_abs();
    apart * apart
}

/// The distance of two points.
fn long_distance(point: &[i32], mean: &[i32]) -> u128
    requires point { All (λ z. nat_abs z ≤ greatest_element) point.now }
    requires mean { All (λ z. nat_abs z ≤ greatest_element) mean.now }
    requires alike { length point.now ≡ length mean.now }
    ensures distance { result ≡ items.distance point.now mean.now }
    ensures below { result < 340282366920938463463374607431768211455 }
{
    let mut sum = 0;
    for at in 0..point.len() {
        sum += square(point, mean, at) as u128;
    }
    sum
}

/// The distance of two points, the sum of the squares of what their coordinates differ by. Quick for up to 1024 coordinates that are told
/// to be short.
#[inline(always)]
pub(crate) fn distance(point: &[i32], mean: &[i32], short: bool) -> u128
    requires point { All (λ z. nat_abs z ≤ greatest_element) point.now }
    requires mean { All (λ z. nat_abs z ≤ greatest_element) mean.now }
    requires alike { length point.now ≡ length mean.now }
    requires short_point { IsTrue short → AreShort point.now }
    requires short_mean { IsTrue short → AreShort mean.now }
    ensures distance { result ≡ items.distance point.now mean.now }
    ensures below { result < 340282366920938463463374607431768211455 }
{
    if short && point.len() <= FEW {
        return short_distance(point, mean) as u128;
    }
    long_distance(point, mean)
}
