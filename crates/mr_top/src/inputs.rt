ghost use Rattle.std.specs.Prelude.{◌≡◌, ◌<◌, ◌≤◌, ◌++◌, ◌∷◌, slice_index_or, [], All, IfOk, IfErr, IfSome, OnOk, Ok, Some, codes, length};
ghost use Rattle.mr_defs.specs.Limits.{input_limit};
ghost use Rattle.mr_base.specs.declared.status.Status.TheVariants as status;
ghost use Rattle.mr_items.specs.FaultLines.{input_line, inputs_line};
ghost use Rattle.mr_jobs.specs.Jobs.{inputs_wanted};
ghost use Rattle.mr_jobs.specs.Meets.{IsOfInputs, Meets};
ghost use Rattle.mr_top.specs.Halts.{Halts, IsPastJob};
ghost use Rattle.mr_top.specs.RunEnding.{counted, input_at, input_in, inputs_from, inputs_of};
ghost use Rattle.mr_top.specs.Stages.{ComesTo};

use crate::halt::Halt;
use crate::reading::take_bytes;
use mr_base::{Memory, Status, Stop, Text, Word};
use mr_capacity::JobKind;
use mr_jobs::{Refusal, input_words, wanted};
use mr_outside::{Shelf, Taken};
use std::alloc::Global;

// The most bytes of an input.
const LIMIT: u64 = 134217728;

// The refusal of so many inputs, where another number is wanted.
fn refused_number(alloc: Global, given: usize, wanted: u32) -> Result<Refusal, Memory>
    ensures status { IfOk result (λ r. r.status ≡ status.Input) }
    ensures line { IfOk result (λ r. r.line ≡ inputs_line given wanted) }
{
    let mut words = Text::new(alloc);
    words.push(b"inputs ")?;
    words.push_number(given as i128)?;
    words.push(b" of ")?;
    words.push_number(wanted as i128)?;
    Refusal::of(alloc, Status::Input, words.as_bytes())
}

// The refusal of an input that is too long.
fn refused_length(alloc: Global, number: usize) -> Result<Refusal, Memory>
    ensures status { IfOk result (λ r. r.status ≡ status.Input) }
    ensures line { IfOk result (λ r. r.line ≡ input_line number (codes "too long")) }
{
    let words = input_words(alloc, number, b"too long")?;
    Refusal::of(alloc, Status::Input, words.as_bytes())
}

// The bytes of the input with this number, of which None stands for one that is too long.
fn input_in(alloc: Global, number: usize, read: Option<Taken>) -> Result<Taken, Stop<Refusal>>
    ensures meets { Meets (input_in number read) result }
    ensures of_inputs { IsOfInputs result }
    ensures same { IfOk result (λ taken. read ≡ Some taken) }
{
    match read {
        Some(taken) => Ok(taken),
        None => Err(Stop::Refused(refused_length(alloc, number)?)),
    }
}

// Reads the input of this name, which has this number.
fn take_input<H: Shelf>(
    alloc: Global,
    shelf: &mut H,
    name: &str,
    number: usize,
) -> Result<Taken, Halt>
    ensures kept { H.contents shelf.new ≡ H.contents shelf.old }
    ensures later { H.count shelf.old ≤ H.count shelf.new }
    ensures ok { IfOk result (λ taken. ComesTo (H.contents shelf.old) (input_at number name.now) (Ok taken)) }
    ensures short { IfOk result (λ taken. length taken ≤ input_limit) }
    ensures err { IfErr result (λ h. Halts h (H.contents shelf.old) (input_at number name.now) (H.count shelf.old)
        (H.count shelf.new)) }
    ensures behind { IfErr result IsPastJob }
{
    let read = take_bytes(alloc, shelf, name, LIMIT)?;
    let taken = input_in(alloc, number, read)?;
    Ok(taken)
}

fn text_at(words: &[Word], place: usize) -> &str
    requires { place < length words.now }
    ensures { result.now ≡ slice_index_or words.now place [] }
{
    words[place].as_str()
}

// Puts an input last.
fn keep(inputs: &mut Vec<Taken>, taken: Taken) -> Result<(), Memory>
    ensures { OnOk result (inputs.new.items ≡ inputs.old.items ++ taken ∷ []) }
{
    inputs.push(taken)?;
    Ok(())
}

// Reads the inputs of these names in their order.
fn take_all<H: Shelf>(alloc: Global, shelf: &mut H, names: &[Word]) -> Result<Vec<Taken>, Halt>
    requires { length names.now ≤ 2 }
    ensures later { H.count shelf.old ≤ H.count shelf.new }
    ensures ok { IfOk result (λ taken. ComesTo (H.contents shelf.old) (inputs_from 1 names.now) (Ok taken.items)) }
    ensures short { IfOk result (λ taken. All (λ bytes. length bytes ≤ input_limit) taken.items) }
    ensures count { IfOk result (λ taken. length taken.items ≡ length names.now) }
    ensures err { IfErr result (λ h. Halts h (H.contents shelf.old) (inputs_from 1 names.now) (H.count shelf.old)
        (H.count shelf.new)) }
    ensures behind { IfErr result IsPastJob }
{
    let mut inputs = Vec::new(alloc);
    for place in 0..names.len() {
        match take_input(alloc, shelf, text_at(names, place), place + 1) {
            Ok(taken) => keep(&mut inputs, taken)?,
            Err(halt) => return Err(halt),
        }
    }
    Ok(inputs)
}

// The number of inputs, where it is that of the job.
fn counted(alloc: Global, kind: JobKind, given: usize) -> Result<usize, Stop<Refusal>>
    ensures meets { Meets (counted kind given) result }
    ensures of_inputs { IsOfInputs result }
    ensures count { IfOk result (λ n. (n ≡ given) × (n ≡ inputs_wanted kind)) }
{
    let wanted = wanted(kind);
    if given != wanted as usize {
        return Err(Stop::Refused(refused_number(alloc, given, wanted)?));
    }
    Ok(given)
}

/// Reads the inputs of these names, where there are as many as the job has.
pub fn take_inputs<H: Shelf>(
    alloc: Global,
    shelf: &mut H,
    kind: JobKind,
    names: &[Word],
) -> Result<Vec<Taken>, Halt>
    ensures later { H.count shelf.old ≤ H.count shelf.new }
    ensures ok { IfOk result (λ taken. ComesTo (H.contents shelf.old) (inputs_of kind names.now) (Ok taken.items)) }
    ensures short { IfOk result (λ taken. All (λ bytes. length bytes ≤ input_limit) taken.items) }
    ensures count { IfOk result (λ taken. length taken.items ≡ inputs_wanted kind) }
    ensures err { IfErr result (λ h. Halts h (H.contents shelf.old) (inputs_of kind names.now) (H.count shelf.old)
        (H.count shelf.new)) }
    ensures behind { IfErr result IsPastJob }
{
    let _count = counted(alloc, kind, names.len())?;
    let inputs = take_all(alloc, shelf, names)?;
    Ok(inputs)
}
