ghost use Rattle.std.specs.Prelude.{◌≡◌, ◌≤◌, ◌++◌, IfOk, OnOk};
ghost use Rattle.mr_items.specs.Generator.{generated, word_of};
ghost use Rattle.mr_generator.specs.Words.{words_below};

use mr_base::{Key, Memory, SliceKey, Text};
use mr_outside::Taken;
use rand_core::SeedableRng;
use rand_core::utils::NextWord;
use rand_xoshiro::SplitMix64;
use std::alloc::Global;

// How many different words there are.
const WORDS: u64 = 5000;

// The most bytes of a word with its line's end.
const WORD_BYTES: usize = 6;

// The word of a number, with its line's end.
fn word(alloc: Global, number: u64) -> Result<Text, Memory>
    ensures { IfOk result (λ text. text ≡ word_of number) }
{
    let mut text = Text::new(alloc);
    text.push(b"w")?;
    text.push_natural(number % WORDS)?;
    text.push(b"\n")?;
    Ok(text)
}

// All words, in the order of their numbers.
fn all_words(alloc: Global) -> Result<Vec<Text>, Memory>
    ensures { IfOk result (λ words. words.items ≡ words_below 5000) }
{
    let mut words = Vec::new(alloc);
    for number in 0..WORDS {
        words.push(word(alloc, number)?)?;
    }
    Ok(words)
}

// The same words as keys, which are printed by their first bytes without a look at the texts.
fn as_keys<'a>(alloc: Global, words: &'a [Text]) -> Result<Vec<SliceKey<'a>>, Memory>
    ensures { IfOk result (λ keys. keys.items ≡ words.now) }
{
    let mut keys = Vec::new(alloc);
    for word in words {
        keys.push(SliceKey::of(word.as_bytes(), false))?;
    }
    Ok(keys)
}

// Appends the word of an output of the generator.
#[inline]
fn push_word<'a>(text: &mut Text, words: &[SliceKey<'a>], output: u64) -> Result<(), Memory>
    requires { words.now ≡ words_below 5000 }
    ensures { OnOk result (text.new ≡ text.old ++ word_of output) }
{
    words[(output % WORDS) as usize].print(text)
}

// So many words, of the outputs of a generator whose state starts at the seed.
fn text_of<'a>(alloc: Global, words: &[SliceKey<'a>], seed: u64, count: u32) -> Result<Text, Memory>
    requires { words.now ≡ words_below 5000 }
    ensures { IfOk result (λ text. text ≡ generated seed count) }
{
    let mut text = Text::new(alloc);
    text.reserve(WORD_BYTES * count as usize + 16)?;
    let mut generator = SplitMix64::seed_from_u64(seed);
    for _ in 0..count {
        push_word(&mut text, words, generator.next_word())?;
    }
    Ok(text)
}

/// The generated text: `count` words, from 1 to 1000000, by the outputs of SplitMix64 whose state starts at the seed.
pub fn generated(alloc: Global, seed: u64, count: u32) -> Result<Taken, Memory>
    requires some { 1 ≤ count }
    requires most { count ≤ 1000000 }
    ensures { IfOk result (λ text. text ≡ generated seed count) }
{
    let texts = all_words(alloc)?;
    let words = as_keys(alloc, &texts)?;
    let text = text_of(alloc, &words, seed, count)?;
    Ok(Taken::of(text.into_bytes()))
}
