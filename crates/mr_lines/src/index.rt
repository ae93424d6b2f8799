ghost use Rattle.std.specs.Prelude.{◌≡◌, ◌≤◌, ℕ, length, pos, slice_index_or};
ghost use Rattle.std.specs.List.{flat_map, range_with_len};
ghost use Rattle.mr_defs.specs.Folded.{limit};
ghost use Rattle.mr_defs.specs.Tasks as tasks;
ghost use Rattle.mr_items.specs.InvertedIndex.{inverted_index_emits, inverted_index_emissions};
ghost use Rattle.mr_items.specs.Lines.{line_places};
ghost use Rattle.mr_split.specs.Pieces.{ArePieces};
ghost use Rattle.mr_split.specs.declared.boundary.Boundary.{Boundary};

use crate::driver::LineJob;
use crate::slice_lines::SliceLines;
use mr_base::{Memory, SliceKey};
use mr_container::{Local, Mapper};
use mr_split::Pieces;
use mr_text::{EDGES, TextJob, WordJob, emit_words};
use std::alloc::Global;

// Each word of a line, with the offset of the line's first byte.
#[derive(Drop)]
struct PlacedWords<'a> {
    input: &'a [u8],
    place: u64,
    ghost small: { place ≤ limit },
}

impl<'a> TextJob for PlacedWords<'a> {
    ghost text = { λ j. j.input.now };
}

impl<'a> WordJob for PlacedWords<'a> {
    type Key = SliceKey<'a>;

    ghost pair_of = { λ j word. (word, pos j.place) };

    #[inline(always)]
    fn pair(&self, _alloc: Global, from: usize, to: usize) -> Result<(SliceKey<'a>, i64), Memory> {
        Ok((
            SliceKey::within(self.input, from, to, true),
            self.place as i64,
        ))
    }
}

/// The lines of a text. A line emits each of its words, folded to small letters, with the offset of its first byte.
#[derive(Drop)]
pub struct WordsOfLines<'a> {
    input: &'a [u8],
}

/// Finds the lines of each word: each word of a line, folded to small letters, is emitted with the offset of the line's first byte, once
/// for each time that it stands there.
pub type InvertedIndex<'a> = SliceLines<'a, Vec<u32>, WordsOfLines<'a>>;

impl<'a> SliceLines<'a, Vec<u32>, WordsOfLines<'a>> {
    /// The job over this text, cut into these pieces. Takes no memory.
    pub fn new(input: &'a [u8], pieces: &'a Pieces) -> InvertedIndex<'a>
        requires { ArePieces Boundary.Line input.now pieces.now }
        ensures count { ⟦<InvertedIndex<'a> as Mapper>⟧.task_count result ≡ length pieces.now }
        ensures tasks { (t : ℕ) → ⟦<InvertedIndex<'a> as Mapper>⟧.task_emissions result t
            ≡ tasks.task_emissions (inverted_index_emits input.now) (line_places input.now) (slice_index_or pieces.now t (0, 0)) }
        ensures whole { flat_map (⟦<InvertedIndex<'a> as Mapper>⟧.task_emissions result)
            (range_with_len 0 (⟦<InvertedIndex<'a> as Mapper>⟧.task_count result)) ≡ inverted_index_emissions input.now }
    {
        SliceLines::over(WordsOfLines { input }, input, pieces)
    }
}

impl<'a> TextJob for WordsOfLines<'a> {
    ghost text = { λ j. j.input.now };
}

// It keeps the edges of the words of a strip.
impl<'a> LineJob<Vec<u32>> for WordsOfLines<'a> {
    type Key = SliceKey<'a>;

    ghost emits = { λ j. inverted_index_emits j.input.now };

    ghost ready = { λ _ edges _ _. length edges.items ≡ 1088 };

    fn state(&self, alloc: Global, _from: usize, _stop: usize) -> Result<Vec<u32>, Memory> {
        Ok(vec![in alloc; 0u32; EDGES]?)
    }

    fn line<L: Local<Key = SliceKey<'a>, Value = i64>>(
        &self,
        alloc: Global,
        from: usize,
        to: usize,
        _stop: usize,
        edges: &mut Vec<u32>,
        block: &mut Vec<(SliceKey<'a>, i64)>,
        out: &mut L,
    ) -> Result<(), Memory> {
        let words = PlacedWords {
            input: self.input,
            place: from as u64,
        };
        emit_words(alloc, &words, self.input, from, to, edges, block, out)
    }
}
