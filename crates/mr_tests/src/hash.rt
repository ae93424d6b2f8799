ghost use Rattle.std.specs.Prelude.{◌≤◌, ◌<◌, All, IfOk, length};

use crate::shown::push_numbers;
use crate::threads::can_be_shared;
use mr_base::{ByteKey, Emitted, Key, Memory, NumKey, SliceKey, Text, TextKey};
use mr_combine::{Buffer, Combiner, List, Plain, Reducer, Sum};
use mr_container::{Local, Parted, SortedLocal};
use mr_hash::HashLocal;
use std::alloc::Global;
use std::test::Fail;

// Puts in what each key of a partition comes to, as a line.
fn gather<L: Parted<Value = i64>, R: Reducer<L::Fold>>(
    alloc: Global,
    local: &L,
    part: u32,
    parts: u32,
    lines: &mut Vec<ByteKey>,
) -> Result<(), Memory>
    requires some { 1 ≤ parts }
    requires few { parts ≤ 64 }
    requires part { part < parts }
{
    let mut cursor = local.cursor(part, parts);
    while let Some((key, cell)) = local.next(&mut cursor) {
        let mut line = Text::new(alloc);
        key.print(&mut line)?;
        push_numbers::<L::Fold, R>(alloc, cell, &mut line)?;
        lines.push(ByteKey::of(alloc, line.as_bytes())?)?;
    }
    Ok(())
}

// The lines of all partitions, in their order.
fn shown<L: Parted<Value = i64>, R: Reducer<L::Fold>>(
    alloc: Global,
    local: &L,
    parts: u32,
) -> Result<Text, Memory>
    requires some { 1 ≤ parts }
    requires few { parts ≤ 64 }
{
    let mut lines = Vec::new(alloc);
    for part in 0..parts {
        gather::<L, R>(alloc, local, part, parts, &mut lines)?;
    }
    lines.sort()?;
    let mut text = Text::new(alloc);
    for line in &lines {
        text.push(line.as_bytes())?;
        text.push(b"\n")?;
    }
    Ok(text)
}

// Puts a pair into the block: of some 900 keys of up to 23 bytes one that comes in its turn.
fn push_pair<'a, K: TextKey<'a>>(
    alloc: Global,
    words: &'a [u8],
    turn: u32,
    block: &mut Vec<(K, i64)>,
) -> Result<(), Memory>
    requires words { 63 ≤ length words.now }
    requires allowed { All (λ p. K.allowed p.0 × ⟦<i64 as Emitted>⟧.allowed p.1) block.old.items }
    ensures { All (λ p. K.allowed p.0 × ⟦<i64 as Emitted>⟧.allowed p.1) block.new.items }
{
    let from = (turn as usize).wrapping_mul(7) % 40;
    let to = from + (turn as usize) / 40 % 24;
    let key = K::part_of(alloc, words, from, to, turn % 3 == 0)?;
    block.push((key, (turn % 9) as i64 - 4))?;
    Ok(())
}

// A block of as many pairs, from a turn on.
fn block_of<'a, K: TextKey<'a>>(
    alloc: Global,
    words: &'a [u8],
    turn: u32,
    pairs: u32,
) -> Result<Vec<(K, i64)>, Memory>
    requires { 63 ≤ length words.now }
    ensures { IfOk result (λ block. All (λ p. K.allowed p.0 × ⟦<i64 as Emitted>⟧.allowed p.1) block.items) }
{
    let mut block = Vec::new(alloc);
    for nth in 0..pairs {
        push_pair(alloc, words, turn.wrapping_add(nth), &mut block)?;
    }
    Ok(block)
}

// Emits blocks of pairs, longer than what is looked for side by side.
fn fill<'a, K: TextKey<'a>, L: Local<Key = K, Value = i64>>(
    alloc: Global,
    words: &'a [u8],
    blocks: u32,
    local: &mut L,
) -> Result<(), Memory>
    requires { 63 ≤ length words.now }
{
    for nth in 0..blocks {
        let mut block = block_of(alloc, words, nth.wrapping_mul(300), 300)?;
        local.emit_block(&mut block)?;
    }
    Ok(())
}

// Whether both containers come to the same, read plainly, arranged, and with pairs after that.
fn same_as_plain<'a, K: TextKey<'a>, C: Combiner<Value = i64>, R: Reducer<C>, const N: usize>(
    alloc: Global,
    words: &'a [u8],
    parts: u32,
) -> Result<bool, Memory>
    requires some { 1 ≤ N }
    requires most { N ≤ 65536 }
    requires words { 63 ≤ length words.now }
    requires some_parts { 1 ≤ parts }
    requires few_parts { parts ≤ 64 }
{
    let mut plain: SortedLocal<K, C> = SortedLocal::new(alloc);
    let mut local: HashLocal<K, C, N> = HashLocal::new(alloc)?;
    let mut same = true;
    for blocks in [2, 8] {
        fill(alloc, words, blocks, &mut plain)?;
        fill(alloc, words, blocks, &mut local)?;
        let wanted = shown::<SortedLocal<K, C>, R>(alloc, &plain, 1)?;
        let read = shown::<HashLocal<K, C, N>, R>(alloc, &local, parts)?;
        local.arrange(alloc, parts)?;
        let arranged = shown::<HashLocal<K, C, N>, R>(alloc, &local, parts)?;
        let other = shown::<HashLocal<K, C, N>, R>(alloc, &local, 5)?;
        same = same
            && local.cells() == plain.cells()
            && wanted.as_bytes() == read.as_bytes()
            && wanted.as_bytes() == arranged.as_bytes()
            && wanted.as_bytes() == other.as_bytes();
    }
    Ok(same && local.cells() > 600)
}

#[test]
fn cells_of_the_plain_container(rt: HostRuntime) -> Result<(), Fail> {
    let alloc = rt.alloc();
    let words = b"The quick brown fox jumps over the lazy dog and runs THE QUICK way.".as_slice();
    for parts in [1, 7, 64] {
        assert!(rt; same_as_plain::<ByteKey, Sum, Plain, 65536>(alloc, words, parts)?);
        assert!(rt; same_as_plain::<ByteKey, Buffer, List, 16>(alloc, words, parts)?);
        assert!(rt; same_as_plain::<SliceKey, Sum, Plain, 768>(alloc, words, parts)?);
        assert!(rt; same_as_plain::<SliceKey, Buffer, List, 1>(alloc, words, parts)?);
    }
    Ok(())
}

#[test]
fn least_faults(rt: HostRuntime) -> Result<(), Fail> {
    let alloc = rt.alloc();
    let mut local: HashLocal<SliceKey, Sum, 64> = HashLocal::new(alloc)?;
    local.malformed(9);
    local.malformed(4);
    local.too_large(SliceKey::of(b"the", false));
    local.too_large(SliceKey::of(b"THE", true));
    local.too_large(SliceKey::of(b"word", false));
    local.emit(SliceKey::of(b"a", false), -1)?;
    assert!(rt; local.faults().malformed == Some(4));
    assert!(rt; local.faults().over == Some(SliceKey::of(b"the", false)));
    assert!(rt; local.faults().outside.is_none() && local.faults().twice.is_none());
    assert!(rt; local.cells() == 1);
    assert!(rt; can_be_shared(&local));
    Ok(())
}

// Emits so many pairs, each of a key of its own.
fn count_up<L: Local<Key = NumKey, Value = i64>>(local: &mut L, pairs: u32) -> Result<(), Memory> {
    for n in 0..pairs {
        local.emit(NumKey(n as u64), 1)?;
    }
    Ok(())
}

#[test]
fn full_tables_are_given_away(rt: HostRuntime) -> Result<(), Fail> {
    let alloc = rt.alloc();
    let mut local: HashLocal<NumKey, Sum, 65536> = HashLocal::new(alloc)?;
    local.malformed(7);
    count_up(&mut local, 40000)?;
    assert!(rt; local.spill(alloc)?.is_none());
    count_up(&mut local, 50000)?;
    assert!(rt; local.spill(alloc)?.is_none() && local.cells() == 50000);
    let mut local: HashLocal<NumKey, Sum, 65536> = HashLocal::new(alloc)?;
    local.malformed(7);
    count_up(&mut local, 50000)?;
    let given = local.spill(alloc)?;
    assert!(rt; local.cells() == 0 && local.faults().malformed.is_none());
    count_up(&mut local, 3)?;
    assert!(rt; local.cells() == 3 && local.spill(alloc)?.is_none());
    match given {
        Some(given) => assert!(rt; given.cells() == 50000 && given.faults().malformed == Some(7)),
        None => assert!(rt; false),
    }
    let mut lists: HashLocal<NumKey, Buffer, 65536> = HashLocal::new(alloc)?;
    count_up(&mut lists, 50000)?;
    assert!(rt; lists.spill(alloc)?.is_none());
    Ok(())
}
