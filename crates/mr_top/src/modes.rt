ghost use Rattle.std.specs.Prelude.{◌≡◌, ◌≤◌, ◌∷◌, [], All, IfOk, IfErr, Ok, false, is_some, length, true};
ghost use Rattle.mr_defs.specs.Limits.{input_limit};
ghost use Rattle.mr_capacity.specs.declared.jobs.JobKind.TheVariants as job_kind;
ghost use Rattle.mr_command.specs.Asked.{asked};
ghost use Rattle.mr_command.specs.Form.{IsUpTo, IsWithin, words_most, workers_most};
ghost use Rattle.mr_items.specs.Generator.{generated};
ghost use Rattle.mr_jobfile.specs.Seen.{seen};
ghost use Rattle.mr_jobs.specs.Jobs.{IsLawfulReport, inputs_wanted, job_ending};
ghost use Rattle.mr_jobs.specs.Meets.{IsOfInputs, Meets, MeetsSeen};
ghost use Rattle.mr_jobs.specs.Printable.{IsPrintable};
ghost use Rattle.mr_jobs.specs.Reported.{reported};
ghost use Rattle.mr_report.specs.Shown.{rounds_seen};
ghost use Rattle.mr_top.specs.Halts.{Halts, HasJobStatus, HasLateStatus, IsOfJob, IsPastJob, IsPastWords};
ghost use Rattle.mr_top.specs.Means.{ReadAlone};
ghost use Rattle.mr_top.specs.Reports.{IsOfCommand, IsOfJobReport, Reports, reports_in};
ghost use Rattle.mr_top.specs.RunEnding.{commanded, generated_run, generated_text, ran, reads_inputs};
ghost use Rattle.mr_top.specs.Stages.{ComesTo};

use crate::finished::{Finished, finished_check, finished_job};
use crate::halt::Halt;
use crate::inputs::take_inputs;
use crate::job::{refused, take_job};
use mr_base::{Stop, Word};
use mr_capacity::JobKind;
use mr_command::{Command, Mode};
use mr_generator::generated;
use mr_jobfile::{Job, JobFault};
use mr_jobs::{Output, Refusal, Workers, run_generated, run_job};
use mr_outside::{Gate, Shelf, Taken};
use std::alloc::Global;
use std::thread::Threads;

// Runs the job on inputs that were read.
fn on_inputs<T: Threads + Sync, G: Gate + Sync>(
    workers: &Workers<T, G>,
    job: &Job,
    inputs: &Vec<Taken>,
) -> Result<Output, Stop<Refusal>>
    requires count { length inputs.now.items ≡ inputs_wanted job.now.job }
    requires short { All (λ bytes. length bytes ≤ input_limit) inputs.now.items }
    ensures ending { MeetsSeen (λ o. o.text) (job_ending (seen job.now) inputs.now.items) result }
    ensures of_inputs { IsOfInputs result }
    ensures shares { IfOk result (λ o. IsLawfulReport (seen job.now) inputs.now.items (reported workers.now) (rounds_seen o.rounds.items)) }
    ensures printable { IfOk result IsPrintable }
{
    run_job(workers, job, inputs)
}

// Reads the inputs of a job and runs it on them.
fn ran<T: Threads + Sync, G: Gate + Sync, H: Shelf>(
    workers: &Workers<T, G>,
    shelf: &mut H,
    job: &Job,
    names: &[Word],
    asked: bool,
) -> Result<Finished, Halt>
    requires reports { workers.now.reports ≡ asked }
    ensures later { H.count shelf.old ≤ H.count shelf.new }
    ensures ok { IfOk result (λ o. ComesTo (H.contents shelf.old) (ran (seen job.now) names.now) (Ok o.text)) }
    ensures err { IfErr result (λ h. Halts h (H.contents shelf.old) (ran (seen job.now) names.now) (H.count shelf.old)
        (H.count shelf.new)) }
    ensures behind { IfErr result IsPastJob }
    ensures report { IfOk result (λ o. Reports asked (IsOfJobReport (H.contents shelf.old) Mode.Run names.now (seen job.now)
        workers.now.count) o.report) }
{
    let inputs = take_inputs(workers.alloc, shelf, job.job, names)?;
    let output = on_inputs(workers, job, &inputs)?;
    let finished = finished_job(workers.alloc, asked, output)?;
    Ok(finished)
}

// The text of this seed with so many words, for the count of words alone.
fn text_of(alloc: Global, kind: JobKind, seed: u64, count: u32) -> Result<Taken, Stop<Refusal>>
    requires { IsUpTo words_most count }
    ensures meets { Meets (generated_text seed count kind) result }
    ensures text { IfOk result (λ text. text ≡ generated seed count) }
    ensures of_job { HasJobStatus result }
    ensures kind { IfOk result (λ text. kind ≡ job_kind.WordCount) }
    ensures short { IfOk result (λ text. length text ≤ input_limit) }
{
    if kind != JobKind::WordCount {
        return Err(Stop::Refused(refused(alloc, &JobFault::Pairing)?));
    }
    Ok(generated(alloc, seed, count)?)
}

// Runs the job on the text of this seed with so many words.
fn on_generated<T: Threads + Sync, G: Gate + Sync>(
    workers: &Workers<T, G>,
    job: &Job,
    seed: u64,
    count: u32,
) -> Result<Output, Stop<Refusal>>
    requires { IsUpTo words_most count }
    ensures ending { MeetsSeen (λ o. o.text) (generated_run (seen job.now) seed count) result }
    ensures late { HasLateStatus result }
    ensures shares { IfOk result (λ o. IsLawfulReport (seen job.now) (generated seed count ∷ []) (reported workers.now)
        (rounds_seen o.rounds.items)) }
    ensures printable { IfOk result IsPrintable }
{
    let text = text_of(workers.alloc, job.job, seed, count)?;
    run_generated(workers, job, &text)
}

// Does what a command asks, up to the first write.
pub fn commanded<T: Threads + Sync, G: Gate + Sync, H: Shelf>(
    workers: &Workers<T, G>,
    command: &Command,
    shelf: &mut H,
) -> Result<Finished, Halt>
    requires within { IsWithin command.now.mode }
    requires workers { workers.now.count ≡ command.now.workers }
    requires reports { workers.now.reports ≡ command.now.report }
    ensures ok { IfOk result (λ o. ComesTo (H.contents shelf.old) (commanded (asked command.now)) (Ok o.text)) }
    ensures err { IfErr result (λ h. Halts h (H.contents shelf.old) (commanded (asked command.now)) (H.count shelf.old)
        (H.count shelf.new)) }
    ensures behind { IfErr result IsPastWords }
    ensures started { IfErr result (λ h. IsOfJob h → H.is_started shelf.new ≡ true) }
    ensures named { IfErr result (λ h. IsOfJob h → is_some (H.contents shelf.old) ≡ true
        → H.started shelf.new ≡ command.now.job) }
    ensures alone { IfOk result (λ o. reads_inputs command.now.mode ≡ false → ReadAlone (H.contents shelf.old)
        command.now.job (H.is_started shelf.new) (H.started shelf.new) (H.place shelf.new)) }
    ensures report { IfOk result (λ o. Reports (reports_in command.now.mode command.now.report)
        (IsOfCommand (H.contents shelf.old) (asked command.now)) o.report) }
{
    let job = take_job(workers.alloc, shelf, command.job.as_str())?;
    match command.mode {
        Mode::Run => ran(workers, shelf, &job, &command.inputs, command.report),
        Mode::Check => Ok(finished_check(workers.alloc)?),
        Mode::Generate { seed, count } => {
            let output = on_generated(workers, &job, seed, count)?;
            Ok(finished_job(workers.alloc, command.report, output)?)
        }
    }
}
