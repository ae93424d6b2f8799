ghost use Rattle.std.specs.Prelude.{◌≡◌, IfOk};
ghost use Rattle.mr_items.specs.Texts as texts;

use mr_base::{Key, Memory, Rows, Text, push_row};
use std::alloc::Global;

/// The text of the rows: for each row a line of the key, a space and a number for each number of the answer, and a byte 10.
pub fn rows_text<K: Key>(alloc: Global, rows: &Rows<K>) -> Result<Text, Memory>
    ensures { IfOk result (λ t. t ≡ texts.rows_text K.printed rows.now) }
{
    let mut text = Text::new(alloc);
    for i in 0..rows.len() {
        push_row(&mut text, rows.key(i), rows.answer(i))?;
    }
    Ok(text)
}
