ghost use Rattle.std.specs.Prelude.{◌≤◌, ◌<◌};

use mr_base::{Key, Memory, Text};
use mr_combine::{Combiner, Reducer, Single, Sum};
use mr_container::Parted;
use std::alloc::Global;

/// Appends the keys and sums of a part, in the order in which they are read.
pub fn show_part<L: Parted<Value = i64, Fold = Sum>>(
    local: &L,
    part: u32,
    parts: u32,
    text: &mut Text,
) -> Result<(), Memory>
    requires some { 1 ≤ parts }
    requires few { parts ≤ 64 }
    requires part { part < parts }
{
    let mut cursor = local.cursor(part, parts);
    while let Some((key, cell)) = local.next(&mut cursor) {
        key.print(text)?;
        text.push(b"=")?;
        text.push_number(Sum::number(cell))?;
        text.push(b" ")?;
    }
    Ok(())
}

/// All parts, one after the other, with a bar behind each.
pub fn shown<L: Parted<Value = i64, Fold = Sum>>(
    alloc: Global,
    local: &L,
    parts: u32,
) -> Result<Text, Memory>
    requires some { 1 ≤ parts }
    requires few { parts ≤ 64 }
{
    let mut text = Text::new(alloc);
    for part in 0..parts {
        show_part(local, part, parts, &mut text)?;
        text.push(b"|")?;
    }
    Ok(text)
}

/// Appends what a cell comes to, with a blank before each number.
pub fn push_numbers<C: Combiner, R: Reducer<C>>(
    alloc: Global,
    cell: &C::Cell,
    text: &mut Text,
) -> Result<(), Memory> {
    let answer = R::reduce(alloc, C::copy(alloc, cell)?)?;
    for i in 0..answer.len() {
        text.push(b" ")?;
        text.push_number(answer.number(i))?;
    }
    Ok(())
}
