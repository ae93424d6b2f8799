ghost use Rattle.std.specs.Prelude.{◌≡◌, ◌≤◌, ◌++◌, ◌-ℤ◌, ◌*ℤ◌, ℕ, List, nat_abs, codes, IfOk, OnOk};
ghost use Rattle.mr_defs.specs.Folded.{limit};
ghost use Rattle.mr_items.specs.LinearRegression as items;
ghost use Rattle.mr_items.specs.Texts as texts;
ghost use Rattle.mr_numeric.specs.Sums.{AreSums};

use crate::sums::sum_at;
use mr_base::{Memory, NumKey, Rows, Text};
use std::alloc::Global;

/// The sums of the keys 0 to 5: how many points there are, the sums of their coordinates, and those of the products of these.
#[derive(Drop)]
struct Sums {
    n: i128,
    x: i128,
    y: i128,
    xx: i128,
    yy: i128,
    xy: i128,
    ghost n_small: { nat_abs n ≤ limit },
    ghost x_small: { nat_abs x ≤ limit },
    ghost y_small: { nat_abs y ≤ limit },
    ghost xx_small: { nat_abs xx ≤ limit },
    ghost yy_small: { nat_abs yy ≤ limit },
    ghost xy_small: { nat_abs xy ≤ limit },
}

/// The text of a linear regression from the rows of its sums: a line for each of `n`, `sx`, `sy`, `sxx`, `syy` and `sxy`, with 0 for a key
/// that has no row, then `slope P/D` and `intercept Q/D`, where D is n sxx - sx sx, P is n sxy - sx sy and Q is sy sxx - sx sxy. The
/// fractions are not reduced.
pub fn regression_text(alloc: Global, rows: &Rows<NumKey>) -> Result<Text, Memory>
    requires { AreSums rows.now }
    ensures { IfOk result (λ text. text ≡ items.regression_text rows.now) }
{
    let sums = Sums {
        n: sum_at(rows, 0),
        x: sum_at(rows, 1),
        y: sum_at(rows, 2),
        xx: sum_at(rows, 3),
        yy: sum_at(rows, 4),
        xy: sum_at(rows, 5),
    };
    let mut text = Text::new(alloc);
    push_sums(&mut text, &sums)?;
    push_fractions(&mut text, &sums)?;
    Ok(text)
}

/// Appends the lines of the six sums.
fn push_sums(text: &mut Text, sums: &Sums) -> Result<(), Memory>
    ensures { OnOk result ((rest : List ℕ) → text.new ++ rest
        ≡ text.old ++ (items.named (codes "n") sums.now.n ++ (items.named (codes "sx") sums.now.x ++ (items.named (codes "sy") sums.now.y
        ++ (items.named (codes "sxx") sums.now.xx
        ++ (items.named (codes "syy") sums.now.yy ++ (items.named (codes "sxy") sums.now.xy ++ rest))))))) }
{
    push_named(text, b"n", sums.n)?;
    push_named(text, b"sx", sums.x)?;
    push_named(text, b"sy", sums.y)?;
    push_named(text, b"sxx", sums.xx)?;
    push_named(text, b"syy", sums.yy)?;
    push_named(text, b"sxy", sums.xy)
}

/// Appends the lines of the slope and the intercept.
fn push_fractions(text: &mut Text, sums: &Sums) -> Result<(), Memory>
    ensures { OnOk result (text.new ≡ text.old
        ++ (texts.line (codes "slope "
        ++ texts.fraction ((sums.now.n *ℤ sums.now.xy) -ℤ (sums.now.x *ℤ sums.now.y))
        ((sums.now.n *ℤ sums.now.xx) -ℤ (sums.now.x *ℤ sums.now.x)))
        ++ texts.line (codes "intercept "
        ++ texts.fraction ((sums.now.y *ℤ sums.now.xx) -ℤ (sums.now.x *ℤ sums.now.xy))
        ((sums.now.n *ℤ sums.now.xx) -ℤ (sums.now.x *ℤ sums.now.x))))) }
{
    let below = difference(sums.n, sums.xx, sums.x, sums.x);
    let slope = difference(sums.n, sums.xy, sums.x, sums.y);
    let intercept = difference(sums.y, sums.xx, sums.x, sums.xy);
    push_fraction(text, b"slope ", slope, below)?;
    push_fraction(text, b"intercept ", intercept, below)
}

/// The first product less the second. It stands below 2^127.
fn difference(a: i128, b: i128, c: i128, d: i128) -> i128
    requires a { nat_abs a ≤ limit }
    requires b { nat_abs b ≤ limit }
    requires c { nat_abs c ≤ limit }
    requires d { nat_abs d ≤ limit }
    ensures { result ≡ (a *ℤ b) -ℤ (c *ℤ d) }
{
    a * b - c * d
}

/// Appends a line of a name, a space and a number.
fn push_named(text: &mut Text, name: &[u8], number: i128) -> Result<(), Memory>
    ensures { OnOk result (text.new ≡ text.old ++ items.named name.now number) }
{
    text.push(name)?;
    text.push(b" ")?;
    text.push_number(number)?;
    text.push(b"\n")
}

/// Appends a line of a name and a fraction.
fn push_fraction(text: &mut Text, name: &[u8], above: i128, below: i128) -> Result<(), Memory>
    ensures { OnOk result (text.new ≡ text.old ++ texts.line (name.now ++ texts.fraction above below)) }
{
    text.push(name)?;
    text.push_number(above)?;
    text.push(b"/")?;
    text.push_number(below)?;
    text.push(b"\n")
}
