ghost use Rattle.std.specs.Prelude.{◌≡◌, ℕ, length, pos, slice_index_or};
ghost use Rattle.std.specs.List.{flat_map, range_with_len};
ghost use Rattle.mr_defs.specs.Tasks as tasks;
ghost use Rattle.mr_items.specs.WordCount.{word_count_emits, word_count_emissions};
ghost use Rattle.mr_items.specs.Words.{word_places};
ghost use Rattle.mr_split.specs.Pieces.{ArePieces};
ghost use Rattle.mr_split.specs.declared.boundary.Boundary.{Boundary};

use crate::slice_words::SliceWords;
use crate::word_job::{TextJob, WordJob};
use mr_base::{Memory, SliceKey};
use mr_container::Mapper;
use mr_split::Pieces;
use std::alloc::Global;

/// Each word of a text, with the value 1.
#[derive(Drop)]
pub struct CountedWords<'a> {
    input: &'a [u8],
}

/// Counts words: each word of the text, folded to small letters, is emitted with the value 1.
pub type WordCount<'a> = SliceWords<'a, CountedWords<'a>>;

impl<'a> SliceWords<'a, CountedWords<'a>> {
    /// The job over this text, cut into these pieces. Takes no memory.
    pub fn new(input: &'a [u8], pieces: &'a Pieces) -> WordCount<'a>
        requires { ArePieces Boundary.Word input.now pieces.now }
        ensures count { ⟦<WordCount<'a> as Mapper>⟧.task_count result ≡ length pieces.now }
        ensures tasks { (t : ℕ) → ⟦<WordCount<'a> as Mapper>⟧.task_emissions result t
            ≡ tasks.task_emissions (word_count_emits input.now) (word_places input.now) (slice_index_or pieces.now t (0, 0)) }
        ensures whole { flat_map (⟦<WordCount<'a> as Mapper>⟧.task_emissions result)
            (range_with_len 0 (⟦<WordCount<'a> as Mapper>⟧.task_count result)) ≡ word_count_emissions input.now }
    {
        SliceWords::over(CountedWords { input }, input, pieces)
    }
}

impl<'a> TextJob for CountedWords<'a> {
    ghost text = { λ j. j.input.now };
}

impl<'a> WordJob for CountedWords<'a> {
    type Key = SliceKey<'a>;

    ghost pair_of = { λ _ word. (word, pos 1) };

    #[inline(always)]
    fn pair(&self, _alloc: Global, from: usize, to: usize) -> Result<(SliceKey<'a>, i64), Memory> {
        Ok((SliceKey::within(self.input, from, to, true), 1))
    }
}
