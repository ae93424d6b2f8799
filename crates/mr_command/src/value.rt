ghost use Rattle.std.specs.Prelude.{◌≡◌, ◌≤◌, IfSome, Option, Some, None, if◌then◌else◌, option_map};
ghost use Rattle.std.specs.Str.Parse.{digits_value};
ghost use Rattle.mr_items.specs.Number.{is_numeral_up_to};
ghost use Rattle.mr_command.specs.Form.{IsUpTo, IsWithin, check_of, counter_up_to, generate_of, mode_of, numeral_up_to, workers_most};
ghost use Rattle.mr_command.specs.Form.{workers_of};

use crate::command::Mode;
use mr_base::Word;

// The most workers of a run.
const WORKERS: u64 = 32;

// The most words of a generated text.
const WORDS: u64 = 1000000;

// The number of decimal digits and nothing else, where it is at most this.
fn natural(digits: &[u8], most: u64) -> Option<u64>
    ensures { result ≡ (if is_numeral_up_to most digits.now then Some (digits_value 10 digits.now) else None) }
{
    if digits.is_empty() {
        return None;
    }
    let mut value: u64 = 0;
    for byte in digits {
        if !byte.is_ascii_digit() {
            return None;
        }
        let longer = value as u128 * 10 + (*byte - b'0') as u128;
        if longer > most as u128 {
            return None;
        }
        value = longer as u64;
    }
    Some(value)
}

// The number of a numeral without a sign or a leading zero, where it is at most this.
fn numeral(text: &[u8], most: u64) -> Option<u64>
    ensures { result ≡ numeral_up_to most text.now }
{
    if text.len() > 1 && text[0] == b'0' {
        return None;
    }
    natural(text, most)
}

// The same of a number that isn't 0.
fn counter(text: &[u8], most: u64) -> Option<u64>
    ensures meaning { result ≡ counter_up_to most text.now }
    ensures within { IfSome result (IsUpTo most) }
{
    let number = numeral(text, most)?;
    if number == 0 {
        return None;
    }
    Some(number)
}

// The number of workers that a value names, from 1 to 32, and 1 where there is none.
pub fn workers(value: Option<&str>) -> Option<u32>
    ensures meaning { result ≡ workers_of (option_map (λ s. s.now) value.entry) }
    ensures within { IfSome result (IsUpTo workers_most) }
{
    let Some(text) = value else {
        return Some(1);
    };
    let workers = counter(text.as_bytes(), WORKERS)?;
    Some(workers as u32)
}

// To check a job, without an input.
fn check(inputs: &[Word]) -> Option<Mode>
    ensures { result ≡ check_of inputs.now }
{
    if inputs.is_empty() {
        Some(Mode::Check)
    } else {
        None
    }
}

// To generate a text, of a seed and a count of words.
fn generate(inputs: &[Word]) -> Option<Mode>
    ensures meaning { result ≡ generate_of inputs.now }
    ensures within { IfSome result IsWithin }
{
    if inputs.len() != 2 {
        return None;
    }
    let seed = numeral(inputs[0].as_str().as_bytes(), u64::MAX)?;
    let count = counter(inputs[1].as_str().as_bytes(), WORDS)?;
    Some(Mode::Generate {
        seed,
        count: count as u32,
    })
}

// The mode that a value names with these inputs, and `run` where there is none.
pub fn mode(value: Option<&str>, inputs: &[Word]) -> Option<Mode>
    ensures meaning { result ≡ mode_of inputs.now (option_map (λ s. s.now) value.entry) }
    ensures within { IfSome result IsWithin }
{
    let Some(text) = value else {
        return Some(Mode::Run);
    };
    if text == "run" {
        return Some(Mode::Run);
    }
    if text == "check" {
        return check(inputs);
    }
    if text == "generate" {
        return generate(inputs);
    }
    None
}
