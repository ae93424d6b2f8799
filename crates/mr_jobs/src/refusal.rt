ghost use Rattle.std.specs.Prelude.{◌≡◌, ◌++◌, IfOk, decimal};
ghost use Rattle.mr_items.specs.FaultLines.{emissions_line, fault_line};
ghost use Rattle.mr_jobs.specs.Ending.{input_words, status_of_fault};

use mr_base::{Fault, Key, Memory, Status, Text};
use std::alloc::Global;

/// Why a run is refused: its status, and the line that says so, with its byte 10.
#[derive(Drop)]
pub struct Refusal {
    pub status: Status,
    pub line: Text,
}

impl Refusal {
    /// The refusal with this status whose line is `fault: ` and these words.
    pub fn of(alloc: Global, status: Status, words: &[u8]) -> Result<Refusal, Memory>
        ensures status { IfOk result (λ r. r.status ≡ status) }
        ensures line { IfOk result (λ r. r.line ≡ fault_line words.now) }
    {
        let mut line = Text::new(alloc);
        line.push(b"fault: ")?;
        line.push(words)?;
        line.push(b"\n")?;
        Ok(Refusal { status, line })
    }
}

// NAME and what is shown of the key
fn key_words<K: Key>(alloc: Global, name: &[u8], key: &K) -> Result<Text, Memory>
    ensures { IfOk result (λ words. words ≡ name.now ++ K.shown_of key.now) }
{
    let mut words = Text::new(alloc);
    words.push(name)?;
    key.show(&mut words)?;
    Ok(words)
}

/// NAME and an offset.
pub(crate) fn offset_words(alloc: Global, name: &[u8], offset: u64) -> Result<Text, Memory>
    ensures { IfOk result (λ words. words ≡ name.now ++ decimal offset) }
{
    let mut words = Text::new(alloc);
    words.push(name)?;
    words.push_number(offset as i128)?;
    Ok(words)
}

/// `input NUMBER` and these words, where inputs are counted from 1.
pub fn input_words(alloc: Global, number: usize, text: &[u8]) -> Result<Text, Memory>
    ensures { IfOk result (λ words. words ≡ input_words number text.now) }
{
    let mut words = Text::new(alloc);
    words.push(b"input ")?;
    words.push_number(number as i128)?;
    words.push(b" ")?;
    words.push(text)?;
    Ok(words)
}

// The words of a fault of emissions. Only jobs of one input have an item without form.
fn fault_words<K: Key>(alloc: Global, fault: &Fault<K>) -> Result<Text, Memory>
    ensures { IfOk result (λ words. fault_line words ≡ emissions_line K.shown_of fault.now) }
{
    match fault {
        Fault::Malformed(offset) => {
            let place = offset_words(alloc, b"malformed at ", *offset)?;
            input_words(alloc, 1, place.as_bytes())
        }
        Fault::Outside(key) => key_words(alloc, b"outside ", key),
        Fault::Twice(key) => key_words(alloc, b"twice ", key),
        Fault::Over(key) => key_words(alloc, b"over ", key),
    }
}

fn fault_status<K>(fault: &Fault<K>) -> Status
    ensures { result ≡ status_of_fault fault.now }
{
    match fault {
        Fault::Malformed(_) => Status::Input,
        Fault::Outside(_) => Status::Outside,
        Fault::Twice(_) => Status::Twice,
        Fault::Over(_) => Status::Over,
    }
}

/// The refusal of a fault of emissions.
pub(crate) fn refused_fault<K: Key>(alloc: Global, fault: &Fault<K>) -> Result<Refusal, Memory>
    ensures status { IfOk result (λ r. r.status ≡ status_of_fault fault.now) }
    ensures line { IfOk result (λ r. r.line ≡ emissions_line K.shown_of fault.now) }
{
    let words = fault_words(alloc, fault)?;
    Refusal::of(alloc, fault_status(fault), words.as_bytes())
}
