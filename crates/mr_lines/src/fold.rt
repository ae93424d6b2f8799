ghost use Rattle.std.specs.Prelude.{◌≡◌, ◌≢◌, ◌<◌, ◌≤◌, ◌∷◌, ◌++◌, [], ℕ, List, All, length, negsuc, slice_index_or, slice_range, take};
ghost use Rattle.std.specs.Prelude.{IfOk, IfSome, OnOk, OnErr};
ghost use Rattle.std.specs.List.{flat_map, range_with_len};
ghost use Rattle.std.specs.Option.{option_map_or};
ghost use Rattle.mr_defs.specs.Emission.{Pair, Malformed};
ghost use Rattle.mr_defs.specs.Folded.{limit};
ghost use Rattle.mr_defs.specs.Tasks as tasks;
ghost use Rattle.mr_items.specs.FoldLines.{bytes_key, fields_emit, fold_lines_emissions, fold_lines_emits, number_key};
ghost use Rattle.mr_items.specs.Lines as items;
ghost use Rattle.mr_items.specs.Runs.{runs};
ghost use Rattle.mr_kernels.specs.Edges.{run_edges};
ghost use Rattle.mr_container.specs.Block.{block_emissions};
ghost use Rattle.mr_split.specs.Pieces.{ArePieces};
ghost use Rattle.mr_split.specs.declared.boundary.Boundary.{Boundary};
ghost use Rattle.mr_text.specs.Sent.{Sent, SentSome};

use crate::driver::{LineJob, Lines};
use crate::field::FieldKey;
use crate::slice_lines::SliceLines;
use mr_base::{Key, Memory, NumKey, SliceKey, read_number};
use mr_container::{Local, Mapper};
use mr_kernels::field_edges;
use mr_split::Pieces;
use mr_text::{EDGES, TextJob};
use std::alloc::Global;

/// Where a line ends without the byte 13 before its end.
fn without_return(text: &[u8], from: usize, to: usize) -> usize
    requires order { from ≤ to }
    requires inside { to ≤ length text.now }
    ensures place { (from ≤ result) × (result ≤ to) }
    ensures rest { slice_range text.now from result ≡ items.without_return (slice_range text.now from to) }
{
    if from < to && text[to - 1] == 13 {
        to - 1
    } else {
        to
    }
}

/// Writes the edges of the fields of a line, and gives their number. The list of edges grows with the longest line.
fn edges_of_fields(
    alloc: Global,
    text: &[u8],
    from: usize,
    to: usize,
    edges: &mut Vec<u32>,
) -> Result<usize, Memory>
    requires order { from ≤ to }
    requires inside { to ≤ length text.now }
    ensures number { IfOk result (λ n. n ≤ length edges.new.items) }
    ensures edges { IfOk result (λ n. take n edges.new.items ≡ run_edges items.is_field_byte (slice_range text.now from to)) }
{
    if to - from > u32::MAX as usize - 64 {
        return Err(Memory);
    }
    let room = to - from + 64;
    if edges.len() < room {
        *edges = vec![in alloc; 0u32; room]?;
    }
    Ok(field_edges(text, from, to, edges))
}

/// The pair of a line with a field or more, whose edges these are, or None where it is malformed.
fn pair_of<'a, K: FieldKey<'a>>(
    alloc: Global,
    text: &'a [u8],
    from: usize,
    to: usize,
    edges: &[u32],
    count: usize,
) -> Result<Option<(K, i64)>, Memory>
    requires order { from ≤ to }
    requires inside { to ≤ length text.now }
    requires some { 0 < count }
    requires number { count ≤ length edges.now }
    requires edges { take count edges.now ≡ run_edges items.is_field_byte (slice_range text.now from to) }
    ensures same { IfOk result
        (λ r. (place : ℕ) → fields_emit K.of_field place (runs items.is_field_byte (slice_range text.now from to))
        ≡ option_map_or (λ p. Pair p.0 p.1 ∷ []) r (Malformed place ∷ [])) }
    ensures allowed { IfOk result (λ r. IfSome r (λ p. K.allowed p.0 × (p.1 ≢ negsuc limit))) }
{
    if count != 4 {
        return Ok(None);
    }
    let value = match read_number(&text[from + edges[2] as usize..from + edges[3] as usize]) {
        Some(value) => value,
        None => return Ok(None),
    };
    match K::read(
        alloc,
        text,
        from + edges[0] as usize,
        from + edges[1] as usize,
    )? {
        Some(key) => Ok(Some((key, value))),
        None => Ok(None),
    }
}

/// Puts a pair into the block, or notes a malformed line behind those that wait in it.
fn put<K: Key, L: Local<Key = K, Value = i64>>(
    pair: Option<(K, i64)>,
    place: u64,
    block: &mut Vec<(K, i64)>,
    out: &mut L,
) -> Result<(), Memory>
    requires pair { IfSome pair (λ p. K.allowed p.0 × (p.1 ≢ negsuc limit)) }
    requires allowed { All (λ p. K.allowed p.0 × (p.1 ≢ negsuc limit)) block.old.items }
    ensures ok { OnOk result
        (Sent L.stands out.old out.new
        (block_emissions block.old.items ++ option_map_or (λ p. Pair p.0 p.1 ∷ []) pair (Malformed place ∷ []))
        (block_emissions block.new.items)) }
    ensures err { OnErr result
        (SentSome L.stands out.old out.new
        (block_emissions block.old.items ++ option_map_or (λ p. Pair p.0 p.1 ∷ []) pair (Malformed place ∷ []))) }
    ensures allowed { OnOk result (All (λ p. K.allowed p.0 × (p.1 ≢ negsuc limit)) block.new.items) }
    ensures origin { L.same_origin out.old out.new }
{
    match pair {
        Some((key, value)) => {
            block.push((key, value))?;
        }
        None => {
            out.emit_block(block)?;
            out.malformed(place);
        }
    }
    Ok(())
}

/// Emits the pair of a line, or notes that the line is malformed; a line without a field emits nothing.
fn emit_line<'a, K: FieldKey<'a>, L: Local<Key = K, Value = i64>>(
    alloc: Global,
    text: &'a [u8],
    from: usize,
    to: usize,
    edges: &mut Vec<u32>,
    block: &mut Vec<(K, i64)>,
    out: &mut L,
) -> Result<(), Memory>
    requires order { from ≤ to }
    requires inside { to ≤ length text.now }
    requires line { items.line_at text.now from ≡ slice_range text.now from to }
    requires allowed { All (λ p. K.allowed p.0 × (p.1 ≢ negsuc limit)) block.old.items }
    ensures ok { OnOk result
        (Sent L.stands out.old out.new (block_emissions block.old.items ++ fold_lines_emits K.of_field text.now from)
        (block_emissions block.new.items)) }
    ensures err { OnErr result
        (SentSome L.stands out.old out.new (block_emissions block.old.items ++ fold_lines_emits K.of_field text.now from)) }
    ensures allowed { OnOk result (All (λ p. K.allowed p.0 × (p.1 ≢ negsuc limit)) block.new.items) }
    ensures origin { L.same_origin out.old out.new }
{
    let end = without_return(text, from, to);
    let count = edges_of_fields(alloc, text, from, end, edges)?;
    if count == 0 {
        return Ok(());
    }
    let pair = pair_of::<K>(alloc, text, from, end, edges, count)?;
    put(pair, from as u64, block, out)
}

/// The lines of a text that are pairs of a byte key and a number.
#[derive(Drop)]
pub struct LinesOfBytes<'a> {
    input: &'a [u8],
}

/// Folds the values of lines with byte keys: a line of two fields, of which the second is a number, is emitted as the pair of the two. A
/// line without a field is passed over, and every other one is malformed at its first byte.
pub type FoldBytes<'a> = SliceLines<'a, Vec<u32>, LinesOfBytes<'a>>;

impl<'a> SliceLines<'a, Vec<u32>, LinesOfBytes<'a>> {
    /// The job over this text, cut into these pieces. Takes no memory.
    pub fn new(input: &'a [u8], pieces: &'a Pieces) -> FoldBytes<'a>
        requires { ArePieces Boundary.Line input.now pieces.now }
        ensures count { ⟦<FoldBytes<'a> as Mapper>⟧.task_count result ≡ length pieces.now }
        ensures tasks { (t : ℕ) → ⟦<FoldBytes<'a> as Mapper>⟧.task_emissions result t
            ≡ tasks.task_emissions (fold_lines_emits bytes_key input.now) (items.line_places input.now)
            (slice_index_or pieces.now t (0, 0)) }
        ensures whole { flat_map (⟦<FoldBytes<'a> as Mapper>⟧.task_emissions result)
            (range_with_len 0 (⟦<FoldBytes<'a> as Mapper>⟧.task_count result)) ≡ fold_lines_emissions bytes_key input.now }
    {
        SliceLines::over(LinesOfBytes { input }, input, pieces)
    }
}

impl<'a> TextJob for LinesOfBytes<'a> {
    ghost text = { λ j. j.input.now };
}

// It keeps the edges of the fields of a line.
impl<'a> LineJob<Vec<u32>> for LinesOfBytes<'a> {
    type Key = SliceKey<'a>;

    ghost emits = { λ j. fold_lines_emits bytes_key j.input.now };

    ghost ready = { λ _ _ _ _. Unit {0} };

    fn state(&self, alloc: Global, _from: usize, _stop: usize) -> Result<Vec<u32>, Memory> {
        Ok(vec![in alloc; 0u32; EDGES]?)
    }

    fn line<L: Local<Key = SliceKey<'a>, Value = i64>>(
        &self,
        alloc: Global,
        from: usize,
        to: usize,
        _stop: usize,
        edges: &mut Vec<u32>,
        block: &mut Vec<(SliceKey<'a>, i64)>,
        out: &mut L,
    ) -> Result<(), Memory> {
        emit_line(alloc, self.input, from, to, edges, block, out)
    }
}

/// The lines of a text that are pairs of a number key and a number.
#[derive(Drop)]
pub struct LinesOfNumbers<'a> {
    input: &'a [u8],
}

/// Folds the values of lines with number keys: the same, where the first field is a number too, and at least 0.
pub type FoldNumbers<'a> = Lines<'a, Vec<u32>, LinesOfNumbers<'a>>;

impl<'a> Lines<'a, Vec<u32>, LinesOfNumbers<'a>> {
    /// The job over this text, cut into these pieces. Takes no memory.
    pub fn new(input: &'a [u8], pieces: &'a Pieces) -> FoldNumbers<'a>
        requires { ArePieces Boundary.Line input.now pieces.now }
        ensures count { ⟦<FoldNumbers<'a> as Mapper>⟧.task_count result ≡ length pieces.now }
        ensures tasks { (t : ℕ) → ⟦<FoldNumbers<'a> as Mapper>⟧.task_emissions result t
            ≡ tasks.task_emissions (fold_lines_emits number_key input.now) (items.line_places input.now)
            (slice_index_or pieces.now t (0, 0)) }
        ensures whole { flat_map (⟦<FoldNumbers<'a> as Mapper>⟧.task_emissions result)
            (range_with_len 0 (⟦<FoldNumbers<'a> as Mapper>⟧.task_count result)) ≡ fold_lines_emissions number_key input.now }
    {
        Lines::over(LinesOfNumbers { input }, input, pieces)
    }
}

impl<'a> TextJob for LinesOfNumbers<'a> {
    ghost text = { λ j. j.input.now };
}

// It keeps the edges of the fields of a line.
impl<'a> LineJob<Vec<u32>> for LinesOfNumbers<'a> {
    type Key = NumKey;

    ghost emits = { λ j. fold_lines_emits number_key j.input.now };

    ghost ready = { λ _ _ _ _. Unit {0} };

    fn state(&self, alloc: Global, _from: usize, _stop: usize) -> Result<Vec<u32>, Memory> {
        Ok(vec![in alloc; 0u32; EDGES]?)
    }

    fn line<L: Local<Key = NumKey, Value = i64>>(
        &self,
        alloc: Global,
        from: usize,
        to: usize,
        _stop: usize,
        edges: &mut Vec<u32>,
        block: &mut Vec<(NumKey, i64)>,
        out: &mut L,
    ) -> Result<(), Memory> {
        emit_line(alloc, self.input, from, to, edges, block, out)
    }
}
