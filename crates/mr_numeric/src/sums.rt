ghost use Rattle.std.specs.Prelude.{◌≡◌, ◌≤◌, ◌<◌, ◌==◌, ◌∷◌, ℕ, pos, nat_abs, List, length, map, get_or, find, Some, None, All, IfSome};
ghost use Rattle.std.specs.Prelude.{IfNone, IfOk};
ghost use Rattle.std.specs.List.{range_with_len};
ghost use Rattle.mr_defs.specs.Emission.{Row};
ghost use Rattle.mr_defs.specs.Folded.{limit};
ghost use Rattle.mr_items.specs.Texts as texts;
ghost use Rattle.mr_numeric.specs.Sums.{AreSums, IsSum};

use mr_base::{Answer, Memory, NumKey, Rows};
use std::alloc::Global;

/// The answer of a key, where it has a row.
pub(crate) fn answer_at(rows: &Rows<NumKey>, key: u64) -> Option<&Answer>
    ensures some { IfSome result (λ answer. find (λ row. row.0 == key) rows.now ≡ Some (key, answer.now)) }
    ensures none { IfNone result (find (λ row. row.0 == key) rows.now ≡ None) }
{
    for row in rows.entries() {
        if row.0.0 == key {
            return Some(&row.1);
        }
    }
    None
}

/// The first number of a key's answer, or 0 where it has no row.
pub(crate) fn number_at(rows: &Rows<NumKey>, key: u64) -> i128
    ensures { result ≡ texts.number_at rows.now key }
{
    match answer_at(rows, key) {
        Some(answer) => first_number(answer),
        None => 0,
    }
}

/// The first number of an answer, or 0 where it has none.
fn first_number(answer: &Answer) -> i128
    ensures { result ≡ get_or answer.now 0 (pos 0) }
{
    if answer.len() == 0 {
        return 0;
    }
    answer.number(0)
}

/// The sum of a key, or 0 where it has no row.
pub(crate) fn sum_at(rows: &Rows<NumKey>, key: u64) -> i128
    requires { AreSums rows.now }
    ensures number { result ≡ texts.number_at rows.now key }
    ensures small { nat_abs result ≤ limit }
{
    number_at(rows, key)
}

/// The sums of the keys below a number, in their order, with 0 for a key that has no row. A row is looked at once.
pub(crate) fn sums_below(
    alloc: Global,
    rows: &Rows<NumKey>,
    size: usize,
) -> Result<Vec<i128>, Memory>
    requires { AreSums rows.now }
    ensures { IfOk result (λ sums. sums.items ≡ map (texts.number_at rows.now) (range_with_len 0 size)) }
{
    let mut sums = vec![in alloc; 0i128; size]?;
    put_sums(&mut sums, rows.entries());
    Ok(sums)
}

/// Puts the sum of each row to the place of its key, the first row of a key last.
fn put_sums(sums: &mut [i128], rows: &[(NumKey, Answer)])
    requires rows { AreSums rows.now }
    requires none { All (λ z. z ≡ pos 0) sums.old }
    ensures size { length sums.new ≡ length sums.old }
    ensures sums { (k : ℕ) → k < length sums.old → get_or sums.new k (pos 0) ≡ texts.number_at rows.now k }
{
    for done in 0..rows.len() {
        put_sum(sums, &rows[rows.len() - 1 - done]);
    }
}

/// Puts the sum of a row to the place of its key, where there is that place.
fn put_sum(sums: &mut [i128], row: &(NumKey, Answer))
    requires { IsSum row.now }
    ensures size { length sums.new ≡ length sums.old }
    ensures sums { (rows : List (Row ℕ)) → ((k : ℕ) → k < length sums.old → get_or sums.old k (pos 0) ≡ texts.number_at rows k)
        → (k : ℕ) → k < length sums.old → get_or sums.new k (pos 0) ≡ texts.number_at (row.now ∷ rows) k }
{
    let (key, answer) = row;
    if key.0 < sums.len() as u64 {
        sums[key.0 as usize] = answer.number(0);
    }
}
