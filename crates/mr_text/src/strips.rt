ghost use Rattle.std.specs.Prelude.{◌≡◌, ◌≢◌, ◌≤◌, ◌<◌, ◌+◌, ◌-◌, ◌++◌, ℕ, All, length, negsuc, slice_index, slice_range};
ghost use Rattle.std.specs.Prelude.{true, OnOk, OnErr};
ghost use Rattle.mr_defs.specs.Folded.{limit};
ghost use Rattle.mr_items.specs.Words as items;
ghost use Rattle.mr_container.specs.Block.{block_emissions};
ghost use Rattle.mr_text.specs.Keyed.{word_pairs, word_emissions};
ghost use Rattle.mr_text.specs.Sent.{Sent, SentSome};

use crate::word_job::WordJob;
use mr_base::{Key, Memory};
use mr_container::Local;
use mr_kernels::{is_word_byte, word_edges, word_end};
use std::alloc::Global;

/// How many bytes of a text are scanned at once.
pub const STRIP: usize = 1024;

/// How many edges a strip has room for.
pub const EDGES: usize = 1088;

/// How many pairs a block waits for.
pub const BLOCK: usize = 256;

/// The end of the strip that begins at a place: the last word boundary that is at most a strip's length on. Where a longer word begins
/// there, its end.
fn strip_end(text: &[u8], at: usize, end: usize) -> usize
    requires order { at < end }
    requires inside { end ≤ length text.now }
    requires ends { items.is_word_boundary text.now end ≡ true }
    ensures place { (at < result) × (result ≤ end) }
    ensures between { items.is_word_boundary text.now result ≡ true }
    ensures long { 1024 < result - at → (k : ℕ) → at ≤ k → k < result → items.is_word_byte (slice_index text.now k) ≡ true }
{
    if end - at <= STRIP {
        return end;
    }
    let mut cut = at + STRIP;
    while cut > at {
        if !is_word_byte(text[cut - 1]) {
            return cut;
        }
        cut -= 1;
    }
    word_end(&text[..end], at + STRIP)
}

/// Puts the pair of each word of a strip into the block.
fn push_words<K: Key, J: WordJob<Key = K>>(
    alloc: Global,
    job: &J,
    text: &[u8],
    from: usize,
    to: usize,
    edges: &mut [u32],
    block: &mut Vec<(K, i64)>,
) -> Result<(), Memory>
    requires text { text.now ≡ J.text job.now }
    requires order { from < to }
    requires inside { to ≤ length text.now }
    requires long { 1024 < to - from → (k : ℕ) → from ≤ k → k < to → items.is_word_byte (slice_index text.now k) ≡ true }
    requires room { length edges.old ≡ EDGES }
    requires allowed { All (λ p. K.allowed p.0 × (p.1 ≢ negsuc limit)) block.old.items }
    ensures room { length edges.new ≡ EDGES }
    ensures ok { OnOk result (block.new.items ≡ block.old.items ++ word_pairs (J.pair_of job.now) (slice_range text.now from to)) }
    ensures allowed { OnOk result (All (λ p. K.allowed p.0 × (p.1 ≢ negsuc limit)) block.new.items) }
{
    if to - from > STRIP {
        block.push(job.pair(alloc, from, to)?)?;
        return Ok(());
    }
    let count = word_edges(text, from, to, edges);
    for i in 0..count / 2 {
        let start = from + edges[2 * i] as usize;
        let end = from + edges[2 * i + 1] as usize;
        block.push(job.pair(alloc, start, end)?)?;
    }
    Ok(())
}

/// Emits the pair of each word of a stretch between two word boundaries of the job's text, by way of the block: where it holds enough
/// pairs it is handed over.
pub fn emit_words<K: Key, J: WordJob<Key = K>, L: Local<Key = K, Value = i64>>(
    alloc: Global,
    job: &J,
    text: &[u8],
    from: usize,
    to: usize,
    edges: &mut [u32],
    block: &mut Vec<(K, i64)>,
    out: &mut L,
) -> Result<(), Memory>
    requires text { text.now ≡ J.text job.now }
    requires order { from ≤ to }
    requires inside { to ≤ length text.now }
    requires starts { items.is_word_boundary text.now from ≡ true }
    requires ends { items.is_word_boundary text.now to ≡ true }
    requires room { length edges.old ≡ EDGES }
    requires allowed { All (λ p. K.allowed p.0 × (p.1 ≢ negsuc limit)) block.old.items }
    ensures ok { OnOk result
        (Sent L.stands out.old out.new
        (block_emissions block.old.items ++ word_emissions (J.pair_of job.now) (slice_range text.now from to))
        (block_emissions block.new.items)) }
    ensures err { OnErr result
        (SentSome L.stands out.old out.new
        (block_emissions block.old.items ++ word_emissions (J.pair_of job.now) (slice_range text.now from to))) }
    ensures allowed { OnOk result (All (λ p. K.allowed p.0 × (p.1 ≢ negsuc limit)) block.new.items) }
    ensures room { length edges.new ≡ EDGES }
    ensures origin { L.same_origin out.old out.new }
{
    let mut at = from;
    while at < to {
        let next = strip_end(text, at, to);
        push_words(alloc, job, text, at, next, edges, block)?;
        if block.len() >= BLOCK {
            out.emit_block(block)?;
        }
        at = next;
    }
    Ok(())
}
