ghost use Rattle.std.specs.Prelude.{◌≡◌, ◌≤◌, ◌<◌, ◌*◌, ◌++◌, ◌^◌, length, codes, IfOk, OnOk};
ghost use Rattle.mr_items.specs.Generator.{counted, mark_of, summary};

use mr_base::{Memory, Text};
use std::alloc::Global;

// The most bytes of a text whose mark is taken, 2 ^ 56: a longer one is in no memory.
const MOST: usize = 72057594037927936;

// The sum of each byte times its place, counted from 1.
fn mark(text: &[u8]) -> u128
    requires { length text.now ≤ 2 ^ 56 }
    ensures exact { result ≡ mark_of text.now }
    ensures bound { result ≤ 2 ^ 120 }
{
    let mut mark: u128 = 0;
    let mut place: u128 = 0;
    for byte in text {
        place += 1;
        mark += place * u128::from(*byte);
    }
    mark
}

// Appends a line with a name and a number.
fn push_counted(text: &mut Text, name: &[u8], number: u128) -> Result<(), Memory>
    requires { number ≤ 2 ^ 120 }
    ensures { OnOk result (text.new ≡ text.old ++ counted name.now number) }
{
    text.push(name)?;
    text.push(b" ")?;
    text.push_number(number as i128)?;
    text.push(b"\n")
}

/// The summary of a generated text of so many bytes, of which a job has so many rows with this text: four lines with the length of the
/// text, the number of the rows, the length of their text and its mark, the sum of each byte times its place counted from 1.
///
/// A text of rows of more than 2 ^ 56 bytes, which is in no memory, is answered as want of memory.
pub fn summary(alloc: Global, input: usize, rows: usize, output: &Text) -> Result<Text, Memory>
    ensures { IfOk result (λ text. text ≡ summary input rows output.now) }
{
    let output = output.as_bytes();
    if output.len() > MOST {
        return Err(Memory);
    }
    let mut text = Text::new(alloc);
    push_counted(&mut text, b"input", input as u128)?;
    push_counted(&mut text, b"rows", rows as u128)?;
    push_counted(&mut text, b"output", output.len() as u128)?;
    push_counted(&mut text, b"mark", mark(output))?;
    Ok(text)
}
