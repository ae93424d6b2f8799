ghost use Rattle.std.specs.Prelude.{◌≡◌, ◌<◌, [], ◌∷◌, ◌++◌, length, map, slice_get, Some, OnOk, OnErr};
ghost use Rattle.mr_items.specs.Texts.{row_text};

use crate::answer::Answer;
use crate::key::Key;
use crate::memory::Memory;
use crate::text::Text;
use std::alloc::Global;
use std::marker::Model;

/// Rows of a key and its answer, seen as the list of these pairs.
#[derive(Drop)]
pub struct Rows<K> {
    rows: Vec<(K, Answer)>,
}

impl<K> Model for Rows<K> {
    ghost use Rattle.std.specs.Prelude.{List, ℤ};

    ghost Value = { List (K × List ℤ) };

    ghost view = { λ r. r.rows.items };
}

impl<K: Drop> Rows<K> {
    /// No row. Takes no memory.
    pub fn new(alloc: Global) -> Rows<K>
        ensures { result ≡ [] }
    {
        Rows {
            rows: Vec::new(alloc),
        }
    }

    /// Puts a row last. After want of memory the rows are as before.
    pub fn push(&mut self, key: K, answer: Answer) -> Result<(), Memory>
        ensures ok { OnOk result (self.new ≡ self.old ++ (key, answer) ∷ []) }
        ensures err { OnErr result (self.new ≡ self.old) }
    {
        self.rows.push((key, answer))?;
        Ok(())
    }

    /// The rows of these entries. Takes no memory.
    pub fn from_entries(rows: Vec<(K, Answer)>) -> Rows<K>
        ensures { result ≡ rows.items }
    {
        Rows { rows }
    }

    /// The entries of the rows. Takes no memory.
    pub fn into_entries(self) -> Vec<(K, Answer)>
        ensures { result.items ≡ self }
    {
        self.rows
    }

    /// The entries of the rows, to read.
    pub fn entries(&self) -> &[(K, Answer)]
        ensures { result.now ≡ self.now }
    {
        self.rows.as_slice()
    }

    /// How many there are.
    pub fn len(&self) -> usize
        ensures { result ≡ length self.now }
    {
        self.rows.len()
    }

    /// The key of row `i`, counted from 0.
    pub fn key(&self, i: usize) -> &K
        requires { i < length self.now }
        ensures { slice_get (map (λ r. r.0) self.now) i ≡ Some result.now }
    {
        &self.rows[i].0
    }

    /// The answer of row `i`, counted from 0.
    pub fn answer(&self, i: usize) -> &Answer
        requires { i < length self.now }
        ensures { slice_get (map (λ r. r.1) self.now) i ≡ Some result.now }
    {
        &self.rows[i].1
    }
}

/// Appends the line of a row: the key as it is printed, a space and a number for each number of the answer, and a byte 10.
pub fn push_row<K: Key>(text: &mut Text, key: &K, answer: &Answer) -> Result<(), Memory>
    ensures { OnOk result (text.new ≡ text.old ++ row_text K.printed (key.now, answer.now)) }
{
    key.print(text)?;
    answer.print(text)?;
    text.push(b"\n")
}
