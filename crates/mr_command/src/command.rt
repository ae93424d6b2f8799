ghost use Rattle.std.specs.Prelude.{◌≡◌, IfOk, Some, None, map};
ghost use Rattle.clap.specs.Words.{found_of, rows_of};
ghost use Rattle.mr_command.specs.Asked.{asked};
ghost use Rattle.mr_command.specs.Form.{IsUpTo, IsWithin, form, form_of_rows, inputs_in, is_report, workers_most};

use crate::parse::{parse, value_of, values_of};
use crate::value::{mode, workers};
use clap::ArgMatches;
use mr_base::{Memory, Stop, Word};
use std::alloc::Global;

/// What a command does with its job: runs it on inputs, checks the job file alone, or runs it on a text that it generates.
#[derive(Clone, Copy, Debug, PartialEq, Eq)]
pub enum Mode {
    Run,
    Check,
    /// From 1 to 1000000 words, by the generator whose state starts at the seed.
    Generate { seed: u64, count: u32 },
}

/// The words have no form.
#[derive(Clone, Copy, Debug, PartialEq, Eq)]
pub struct Usage;

/// A command: from 1 to 32 workers, a mode, whether a report is asked for, the name of the job file and the names of the inputs, which in
/// the mode `generate` are the seed and the count.
#[derive(Drop)]
pub struct Command {
    pub workers: u32,
    pub mode: Mode,
    pub report: bool,
    pub job: Word,
    pub inputs: Vec<Word>,
}

// The words ask for a report.
fn asks_report(matches: &ArgMatches<'_>) -> bool
    ensures { result ≡ is_report (rows_of (found_of matches.now)) }
{
    match value_of(matches, "report") {
        Some(text) => text == "true",
        None => false,
    }
}

// Copies of the names of the inputs.
fn input_names(alloc: Global, matches: &ArgMatches<'_>) -> Result<Vec<Word>, Memory>
    ensures { IfOk result (λ names. names.items ≡ inputs_in (rows_of (found_of matches.now))) }
{
    match values_of(matches, "INPUT") {
        Some(names) => copies(alloc, names),
        None => Ok(Vec::new(alloc)),
    }
}

fn copies(alloc: Global, names: &[&str]) -> Result<Vec<Word>, Memory>
    ensures { IfOk result (λ copies. copies.items ≡ map (λ name. name.now) names.now) }
{
    let mut copies = Vec::new(alloc);
    for name in names {
        let copy = Word::of(alloc, name)?;
        copies.push(copy)?;
    }
    Ok(copies)
}

// The command of accepted words, where their values have a form.
fn command_of(alloc: Global, matches: &ArgMatches<'_>) -> Result<Command, Stop<Usage>>
    ensures ok { IfOk result (λ c. form_of_rows (rows_of (found_of matches.now)) ≡ Some (asked c)) }
    ensures usage { (u : Usage) → result ≡ Err (Stop.Refused u) → form_of_rows (rows_of (found_of matches.now)) ≡ None }
    ensures workers { IfOk result (λ c. IsUpTo workers_most c.workers) }
    ensures within { IfOk result (λ c. IsWithin c.mode) }
{
    let Some(workers) = workers(value_of(matches, "workers")) else {
        return Err(Stop::Refused(Usage));
    };
    let Some(job) = value_of(matches, "JOB") else {
        return Err(Stop::Refused(Usage));
    };
    let inputs = input_names(alloc, matches)?;
    let Some(mode) = mode(value_of(matches, "mode"), &inputs) else {
        return Err(Stop::Refused(Usage));
    };
    let job = Word::of(alloc, job)?;
    Ok(Command {
        workers,
        mode,
        report: asks_report(matches),
        job,
        inputs,
    })
}

/// The command that the words ask for, of which the first is the program's name and means nothing. Usage exactly where they have no form.
pub fn read_command(alloc: Global, words: &[Word]) -> Result<Command, Stop<Usage>>
    ensures ok { IfOk result (λ c. form words.now ≡ Some (asked c)) }
    ensures usage { (u : Usage) → result ≡ Err (Stop.Refused u) → form words.now ≡ None }
    ensures workers { IfOk result (λ c. IsUpTo workers_most c.workers) }
    ensures within { IfOk result (λ c. IsWithin c.mode) }
{
    let matches = parse(alloc, words)?;
    command_of(alloc, &matches)
}
