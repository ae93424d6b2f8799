ghost use Rattle.std.specs.Prelude.{◌≡◌, ◌≢◌, ◌<◌, ◌≤◌, ◌++◌, ℕ, List, All, length, map, negsuc, slice_index_or, slice_range, IfOk, OnOk};
ghost use Rattle.std.specs.List.{flat_map, range_with_len};
ghost use Rattle.mr_defs.specs.Folded.{limit};
ghost use Rattle.mr_defs.specs.Tasks as tasks;
ghost use Rattle.mr_items.specs.Lines.{is_line_boundary, line_places};
ghost use Rattle.mr_items.specs.StringMatch.{stands_in, string_match_emits, string_match_emissions};
ghost use Rattle.mr_lines.specs.Searches.{AreNext, IsNext, standing};
ghost use Rattle.mr_split.specs.Pieces.{ArePieces, IsPiece};
ghost use Rattle.mr_split.specs.declared.boundary.Boundary.{Boundary};

use crate::driver::{LineJob, map_lines};
use crate::search::{Search, next_place, stands};
use bstr::Finder;
use mr_base::{Memory, NumKey, Patterns};
use mr_container::{Local, Mapper};
use mr_split::Pieces;
use mr_text::TextJob;
use std::alloc::Global;

// The lines of a text, in which patterns are looked for.
#[derive(Drop)]
struct SearchedLines<'a> {
    input: &'a [u8],
    patterns: &'a Patterns,
}

/// The searches for these patterns from one place of a text up to another.
fn searches<'a>(
    alloc: Global,
    patterns: &'a Patterns,
    text: &[u8],
    from: usize,
    stop: usize,
) -> Result<Vec<Search<'a>>, Memory>
    requires order { from ≤ stop }
    requires inside { stop ≤ length text.now }
    ensures finders { IfOk result (λ s. map (λ x. x.finder) s.items ≡ patterns.now) }
    ensures next { IfOk result (λ s. AreNext text.now stop from s.items) }
{
    let mut searches = Vec::new(alloc);
    for number in 0..patterns.len() {
        let finder = Finder::new(patterns.get(number));
        let next = next_place(&finder, text, from, stop);
        searches.push(Search { finder, next })?;
    }
    Ok(searches)
}

/// Puts a pair for each pattern that stands in a line into the block.
fn push_standing(
    text: &[u8],
    from: usize,
    to: usize,
    stop: usize,
    searches: &mut Vec<Search<'_>>,
    block: &mut Vec<(NumKey, i64)>,
) -> Result<(), Memory>
    requires order { from ≤ to }
    requires within { to ≤ stop }
    requires inside { stop ≤ length text.now }
    requires next { AreNext text.now stop from searches.old.items }
    requires allowed { All (λ p. (p.0 ≤ limit) × (p.1 ≢ negsuc limit)) block.old.items }
    ensures next { OnOk result (AreNext text.now stop from searches.new.items) }
    ensures finders { OnOk result (map (λ x. x.finder) searches.new.items ≡ map (λ x. x.finder) searches.old.items) }
    ensures pairs { OnOk result
        (block.new.items ≡ block.old.items ++ standing (map (λ x. x.finder) searches.old.items) (slice_range text.now from to)) }
    ensures allowed { OnOk result (All (λ p. (p.0 ≤ limit) × (p.1 ≢ negsuc limit)) block.new.items) }
{
    for number in 0..searches.len() {
        if stands(&mut searches[number], text, from, to, stop) {
            block.push((NumKey(number as u64), 1))?;
        }
    }
    Ok(())
}

impl<'a> TextJob for SearchedLines<'a> {
    ghost text = { λ j. j.input.now };
}

// It keeps a search for each pattern.
impl<'a> LineJob<Vec<Search<'a>>> for SearchedLines<'a> {
    type Key = NumKey;

    ghost emits = { λ j. string_match_emits j.patterns.now j.input.now };

    ghost ready = { λ j s stop from. (map (λ x. x.finder) s.items ≡ j.patterns.now) × AreNext j.input.now stop from s.items };

    fn state(&self, alloc: Global, from: usize, stop: usize) -> Result<Vec<Search<'a>>, Memory> {
        searches(alloc, self.patterns, self.input, from, stop)
    }

    fn line<L: Local<Key = NumKey, Value = i64>>(
        &self,
        _alloc: Global,
        from: usize,
        to: usize,
        stop: usize,
        searches: &mut Vec<Search<'a>>,
        block: &mut Vec<(NumKey, i64)>,
        _out: &mut L,
    ) -> Result<(), Memory> {
        push_standing(self.input, from, to, stop, searches, block)?;
        Ok(())
    }
}

/// Finds the lines in which patterns stand: a line emits the number of each pattern that stands somewhere in it, from 0, once and with the
/// value 1.
// It has a `Mapper` of its own, since what it keeps from line to line borrows the patterns: see docs/DECISIONS.md.
#[derive(Drop)]
pub struct StringMatch<'a> {
    lines: SearchedLines<'a>,
    pieces: &'a Pieces,
    ghost are: { All (IsPiece (is_line_boundary lines.input.now) (length lines.input.now)) pieces.now },
}

impl<'a> StringMatch<'a> {
    /// The job over this text, cut into these pieces. Takes no memory.
    pub fn new(input: &'a [u8], pieces: &'a Pieces, patterns: &'a Patterns) -> StringMatch<'a>
        requires { ArePieces Boundary.Line input.now pieces.now }
        ensures count { ⟦<StringMatch<'a> as Mapper>⟧.task_count result ≡ length pieces.now }
        ensures tasks { (t : ℕ) → ⟦<StringMatch<'a> as Mapper>⟧.task_emissions result t
            ≡ tasks.task_emissions (string_match_emits patterns.now input.now) (line_places input.now)
            (slice_index_or pieces.now t (0, 0)) }
        ensures whole { flat_map (⟦<StringMatch<'a> as Mapper>⟧.task_emissions result)
            (range_with_len 0 (⟦<StringMatch<'a> as Mapper>⟧.task_count result)) ≡ string_match_emissions patterns.now input.now }
    {
        StringMatch {
            lines: SearchedLines { input, patterns },
            pieces,
        }
    }
}

impl<'a> Mapper for StringMatch<'a> {
    type Key = NumKey;

    type Value = i64;

    ghost task_count = { λ m. length m.pieces.now };

    ghost task_emissions = { λ m t. tasks.task_emissions (string_match_emits m.lines.patterns.now m.lines.input.now)
        (line_places m.lines.input.now) (slice_index_or m.pieces.now t (0, 0)) };

    fn tasks(&self) -> u32 {
        self.pieces.len()
    }

    fn map<L: Local<Key = NumKey, Value = i64>>(
        &self,
        alloc: Global,
        task: u32,
        out: &mut L,
    ) -> Result<(), Memory> {
        let piece = self.pieces.get(task);
        map_lines(alloc, &self.lines, self.lines.input, piece, out)
    }
}
