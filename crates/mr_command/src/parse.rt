ghost use Rattle.std.specs.Prelude.{◌≡◌, IfOk, List, ℕ, true, false, map, option_map, codes};
ghost use Rattle.clap.specs.Words.{all_of, app_of, first_of, found_of, rows_of, rule_of};
ghost use Rattle.mr_command.specs.Simple.{flag_rule, input_rule, is_accepted, job_rule, mapred_app, option_rule, plain_app, rows};

use crate::command::Usage;
use clap::error::ErrorKind;
use clap::{Arg, ArgAction, ArgMatches};
use mr_base::{Stop, Word};
use std::alloc::{AllocError, Global};

fn option<'a>(alloc: Global, name: &'a str) -> Arg<'a>
    ensures rule { rule_of result ≡ option_rule name.entry.now }
    ensures local { result.global ≡ false }
{
    Arg::new(alloc, name).long(name).action(ArgAction::Set)
}

fn flag<'a>(alloc: Global, name: &'a str) -> Arg<'a>
    ensures rule { rule_of result ≡ flag_rule name.entry.now }
    ensures local { result.global ≡ false }
{
    Arg::new(alloc, name).long(name).action(ArgAction::SetTrue)
}

fn job<'a>(alloc: Global) -> Arg<'a>
    ensures rule { rule_of result ≡ job_rule }
    ensures local { result.global ≡ false }
{
    Arg::new(alloc, "JOB").required(true).action(ArgAction::Set)
}

fn inputs<'a>(alloc: Global) -> Arg<'a>
    ensures rule { rule_of result ≡ input_rule }
    ensures local { result.global ≡ false }
{
    Arg::new(alloc, "INPUT")
        .num_args(0..)
        .action(ArgAction::Append)
}

fn plain<'a>(alloc: Global) -> clap::Command<'a>
    ensures { app_of result ≡ plain_app }
{
    clap::Command::new(alloc, "mapred")
        .disable_help_flag(true)
        .disable_version_flag(true)
}

fn simple_command<'a>(alloc: Global) -> Result<clap::Command<'a>, AllocError>
    ensures { IfOk result (λ c. app_of c ≡ mapred_app) }
{
    let one = plain(alloc).arg(option(alloc, "workers"))?;
    let two = one.arg(option(alloc, "mode"))?;
    let three = two.arg(flag(alloc, "report"))?;
    let four = three.arg(job(alloc))?;
    let five = four.arg(inputs(alloc))?;
    Ok(five)
}

// What clap reads of the words, where it accepts them.
pub fn parse<'a>(alloc: Global, words: &'a [Word]) -> Result<ArgMatches<'a>, Stop<Usage>>
    ensures ok { IfOk result (λ m. (is_accepted words.entry.now ≡ true) × (rows_of (found_of m) ≡ rows words.entry.now)) }
    ensures usage { (u : Usage) → result ≡ Err (Stop.Refused u) → is_accepted words.entry.now ≡ false }
{
    let Ok(command) = simple_command(alloc) else {
        return Err(Stop::Memory);
    };
    match command.try_get_matches_from(words) {
        Ok(matches) => Ok(matches),
        Err(error) => match error.kind() {
            ErrorKind::OutOfMemory => Err(Stop::Memory),
            _ => Err(Stop::Refused(Usage)),
        },
    }
}

// The value of an option or a positional, where the words give one.
pub fn value_of<'a>(matches: &ArgMatches<'a>, id: &str) -> Option<&'a str>
    ensures { option_map (λ s. s.now) result ≡ first_of id.now (rows_of (found_of matches.now)) }
{
    matches.get_str(id)
}

// All values of a positional, where the words give any.
pub fn values_of<'m, 'a>(matches: &'m ArgMatches<'a>, id: &str) -> Option<&'m [&'a str]>
    ensures { option_map (λ s. map (λ v. v.now) s.now) result ≡ all_of id.now (rows_of (found_of matches.now)) }
{
    matches.get_strs(id)
}
