ghost use Rattle.std.specs.Prelude.{◌≡◌, IfOk};

use crate::memory::Memory;
use std::alloc::Global;
use std::convert::AsStr;
use std::marker::Model;

/// A word of the command, seen as its bytes.
#[derive(Drop)]
pub struct Word {
    text: String,
}

impl Model for Word {
    ghost use Rattle.std.specs.Prelude.{List, ℕ, string_bytes};

    ghost Value = { List ℕ };

    ghost view = { λ w. string_bytes w.text };
}

impl Word {
    /// Copies a text.
    pub fn of(alloc: Global, text: &str) -> Result<Word, Memory>
        ensures { IfOk result (λ w. w ≡ text.now) }
    {
        let text = String::from_str(alloc, text)?;
        Ok(Word { text })
    }

    /// The text.
    pub fn as_str(&self) -> &str
        ensures { result.now ≡ self.now }
    {
        self.text.as_str()
    }
}

impl AsStr for Word {
    ghost text = { λ w. w };

    fn as_str(&self) -> &str {
        self.text.as_str()
    }
}
