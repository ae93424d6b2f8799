ghost use Rattle.std.specs.Prelude.{All, ◌≡◌, ◌<◌, ◌^◌, IfOk, None, Some, codes, if◌then◌else◌, length};
ghost use Rattle.mr_items.specs.Report.{report_text};
ghost use Rattle.mr_report.specs.Shown.{rounds_seen};
ghost use Rattle.mr_top.specs.Written.{Told, Writes};

use crate::halt::WRITE_LINE;
use mr_base::{Few, Memory, Status, Text};
use mr_jobs::Output;
use mr_outside::{Sink, put_all};
use mr_report::{Share, report};
use std::alloc::Global;

/// What a run writes that isn't refused: the text, and after it the report, where one is asked for.
#[derive(Drop)]
pub struct Finished {
    pub text: Text,
    pub report: Option<Text>,
}

/// What is written of a job that was checked.
pub fn finished_check(alloc: Global) -> Result<Finished, Memory>
    ensures text { IfOk result (λ o. o.text ≡ codes "ok\n") }
    ensures report { IfOk result (λ o. o.report ≡ None) }
{
    let mut text = Text::new(alloc);
    text.push(b"ok\n")?;
    Ok(Finished { text, report: None })
}

// The report of these rounds, where it is asked for.
fn reported(alloc: Global, asked: bool, rounds: &[Few<Share>]) -> Result<Option<Text>, Memory>
    requires rounds { length rounds.now < 2 ^ 31 }
    requires workers { All (λ round. length round.items < 2 ^ 32) rounds.now }
    ensures { IfOk result (λ text. text ≡ (if asked then Some (report_text (rounds_seen rounds.now)) else None)) }
{
    if !asked {
        return Ok(None);
    }
    Ok(Some(report(alloc, rounds)?))
}

/// What is written of a job that ran, with the report of its rounds where it is asked for.
pub fn finished_job(alloc: Global, asked: bool, output: Output) -> Result<Finished, Memory>
    requires rounds { length output.rounds.items < 2 ^ 31 }
    requires workers { All (λ round. length round.items < 2 ^ 32) output.rounds.items }
    ensures text { IfOk result (λ o. o.text ≡ output.text) }
    ensures report { IfOk result (λ o. o.report
        ≡ (if asked then Some (report_text (rounds_seen output.rounds.items)) else None)) }
{
    let report = reported(alloc, asked, output.rounds.as_slice())?;
    Ok(Finished {
        text: output.text,
        report,
    })
}

// Writes what there is to tell.
fn told<E: Sink>(line: &Option<Text>, err: &mut E)
    ensures { Told line.now (E.held err.old) (E.held err.new) (E.count err.old) (E.count err.new) }
{
    if let Some(line) = line {
        let _ = put_all(err, line.as_bytes());
    }
}

/// Writes the text whole and then the report, or the line of the fault where the text can't be.
pub fn written<O: Sink, E: Sink>(finished: &Finished, out: &mut O, err: &mut E) -> Status
    ensures { Writes result finished.now.text finished.now.report (O.held out.old) (O.held out.new) (O.count out.old) (O.count out.new)
        (E.held err.old) (E.held err.new) (E.count err.old) (E.count err.new) }
{
    match put_all(out, finished.text.as_bytes()) {
        Ok(()) => {
            told(&finished.report, err);
            Status::Done
        }
        Err(_) => {
            let _ = put_all(err, WRITE_LINE);
            Status::WriteFault
        }
    }
}
