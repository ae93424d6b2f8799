ghost use Rattle.std.specs.Prelude.{All, ◌≡◌, ◌++◌, ◌<◌, ◌^◌, IfOk, OnOk, length};
ghost use Rattle.mr_items.specs.Report.{report_text, tasks_text, worker_line, worker_lines};
ghost use Rattle.mr_report.specs.Shown.{rounds_seen, work_of, workers_of};

use mr_base::{Few, Memory, Text};
use std::alloc::Global;

/// What one worker did in a round: the tasks that it took, in their order, and how many cells its container has.
#[derive(Drop)]
pub struct Share {
    pub tasks: Few<u32>,
    pub cells: u64,
}

// A space and each task.
fn push_tasks(text: &mut Text, tasks: &[u32]) -> Result<(), Memory>
    ensures { OnOk result (text.new ≡ text.old ++ tasks_text tasks.now) }
{
    for task in tasks {
        text.push(b" ")?;
        text.push_natural(*task as u64)?;
    }
    Ok(())
}

// The line of a worker.
fn push_worker(text: &mut Text, round: u32, worker: u32, share: &Share) -> Result<(), Memory>
    ensures { OnOk result (text.new ≡ text.old ++ worker_line round worker (work_of share.now)) }
{
    text.push(b"round ")?;
    text.push_natural(round as u64)?;
    text.push(b" worker ")?;
    text.push_natural(worker as u64)?;
    text.push(b" cells ")?;
    text.push_natural(share.cells)?;
    text.push(b" tasks")?;
    push_tasks(text, share.tasks.as_slice())?;
    text.push(b"\n")?;
    Ok(())
}

// The lines of the workers of a round.
fn push_round(text: &mut Text, round: u32, shares: &[Share]) -> Result<(), Memory>
    requires { length shares.now < 2 ^ 32 }
    ensures { OnOk result (text.new ≡ text.old ++ worker_lines round 0 (workers_of shares.now)) }
{
    let mut worker = 0;
    for share in shares {
        push_worker(text, round, worker, share)?;
        worker += 1;
    }
    Ok(())
}

/// The report of these rounds, each with its workers in their order: for each round from 1 and each worker from 0 a line `round R worker W
/// cells C tasks`, then a space and each task, in the order in which the worker took them, and a byte 10.
pub fn report(alloc: Global, rounds: &[Few<Share>]) -> Result<Text, Memory>
    requires rounds { length rounds.now < 2 ^ 31 }
    requires workers { All (λ round. length round.items < 2 ^ 32) rounds.now }
    ensures { IfOk result (λ t. t ≡ report_text (rounds_seen rounds.now)) }
{
    let mut text = Text::new(alloc);
    let mut number = 1;
    for round in rounds {
        push_round(&mut text, number, round.as_slice())?;
        number += 1;
    }
    Ok(text)
}
