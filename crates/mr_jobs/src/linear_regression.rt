ghost use Rattle.std.specs.Prelude.{◌≡◌, ◌≤◌, All, IfOk, decimal, false, length, true};
ghost use Rattle.std.specs.List.{range_with_len};
ghost use Rattle.std.specs.Ordering.{nat_cmp};
ghost use Rattle.mr_capacity.specs.declared.jobs.JobKind.TheVariants as kind;
ghost use Rattle.mr_defs.specs.Folded.{sum_folded};
ghost use Rattle.mr_defs.specs.Limits.{input_limit};
ghost use Rattle.mr_defs.specs.Rounds.{round_of};
ghost use Rattle.mr_defs.specs.Tasks.{spans_of};
ghost use Rattle.mr_items.specs.LinearRegression as items;
ghost use Rattle.mr_jobfile.specs.Seen.{seen};
ghost use Rattle.mr_jobs.specs.Ending.{ended_by};
ghost use Rattle.mr_jobs.specs.Meaning.{inside_of, is_shared};
ghost use Rattle.mr_jobs.specs.Jobs as meaning;
ghost use Rattle.mr_jobs.specs.Meets.{IsOfInputs, MeetsSeen, texted};
ghost use Rattle.mr_jobs.specs.Outputs.{IsJobOutput, IsOutputOf};
ghost use Rattle.mr_jobs.specs.Reported.{reported};
ghost use Rattle.mr_jobs.specs.RoundOf.{IsRoundOfSpans};
ghost use Rattle.mr_jobs.specs.Shares.{AreOnlyRound};
ghost use Rattle.mr_report.specs.Shown.{rounds_seen};

use crate::input::{grid_input, refused_input};
use crate::output::{Output, only};
use crate::phases::Round;
use crate::refusal::{Refusal, refused_fault};
use crate::round::number_round;
use crate::workers::Workers;
use mr_base::{Fault, NumKey, Stop};
use mr_capacity::CombinerKind;
use mr_combine::{Plain, Sum};
use mr_grid::Grid;
use mr_jobfile::Job;
use mr_merge::merge_all;
use mr_numeric::{Regression, regression_text};
use mr_outside::{Gate, Taken};
use mr_split::spans;
use std::thread::Threads;

// The sums of the points of a grid that has the shape.
fn sums<T: Threads + Sync, G: Gate + Sync>(
    workers: &Workers<T, G>,
    job: &Job,
    grid: &Grid,
) -> Result<Round<NumKey>, Stop<Fault<NumKey>>>
    requires own { is_shared job.now.container ≡ false }
    requires shape { items.is_regression_shape grid.now ≡ true }
    requires few { length grid.now ≤ input_limit }
    ensures { IsRoundOfSpans (inside_of job.now.container job.now.capacity) (is_shared job.now.container) sum_folded
        (reported workers.now) job.now.chunk (length grid.now) (items.linear_regression_emits grid.now) result }
{
    let mapper = Regression::new(grid, spans(grid.rows(), job.chunk));
    number_round::<T, G, Regression, Sum, Plain>(workers, job, &mapper)
}

// The text of the line through the points of a grid that has the shape.
fn line_text<T: Threads + Sync, G: Gate + Sync>(
    workers: &Workers<T, G>,
    job: &Job,
    grid: &Grid,
) -> Result<Output, Stop<Refusal>>
    requires own { is_shared job.now.container ≡ false }
    requires shape { items.is_regression_shape grid.now ≡ true }
    requires few { length grid.now ≤ input_limit }
    ensures ending { MeetsSeen (λ o. o.text) (ended_by decimal (texted items.regression_text
        (round_of nat_cmp (inside_of job.now.container job.now.capacity) (is_shared job.now.container) sum_folded
        (items.linear_regression_emissions grid.now)))) result }
    ensures of_inputs { IsOfInputs result }
    ensures shares { IfOk result (λ o. AreOnlyRound nat_cmp (inside_of job.now.container job.now.capacity) (reported workers.now)
        (items.linear_regression_emits grid.now) (range_with_len 0 (length grid.now)) (spans_of job.now.chunk (length grid.now))
        (rounds_seen o.rounds.items)) }
{
    match sums(workers, job, grid) {
        Ok(Round { lists, shares }) => {
            let rows = merge_all(workers.rt, workers.alloc, lists)?;
            let text = regression_text(workers.alloc, &rows)?;
            let rounds = only(workers.alloc, shares)?;
            Ok(Output { text, rounds })
        }
        Err(Stop::Refused(fault)) => Err(Stop::Refused(refused_fault(workers.alloc, &fault)?)),
        Err(Stop::Memory) => Err(Stop::Memory),
    }
}

// The line through the points of a grid, which has two columns.
fn line_through<T: Threads + Sync, G: Gate + Sync>(
    workers: &Workers<T, G>,
    job: &Job,
    grid: &Grid,
) -> Result<Output, Stop<Refusal>>
    requires kind { job.now.job ≡ kind.LinearRegression }
    requires few { length grid.now ≤ input_limit }
    ensures { IsOutputOf (seen job.now) (meaning.regression (seen job.now) grid.now) (reported workers.now) result }
{
    let fits = grid.rows() == 0 || grid.columns() == 2;
    if !fits {
        return Err(Stop::Refused(refused_input(workers.alloc, 1, b"shape")?));
    }
    match job.combiner {
        CombinerKind::Sum => line_text(workers, job, grid),
        _ => unreachable!(),
    }
}

/// Runs `linear_regression`: the sums of the coordinates of the points of a grid and of their products, and the line through them.
pub(crate) fn linear_regression<T: Threads + Sync, G: Gate + Sync>(
    workers: &Workers<T, G>,
    job: &Job,
    inputs: &[Taken],
) -> Result<Output, Stop<Refusal>>
    requires kind { job.now.job ≡ kind.LinearRegression }
    requires count { length inputs.now ≡ 1 }
    requires short { All (λ bytes. length bytes ≤ input_limit) inputs.now }
    ensures { IsJobOutput (seen job.now) inputs.now (reported workers.now) result }
{
    match grid_input(workers, inputs, 0) {
        Ok(grid) => line_through(workers, job, &grid),
        Err(stop) => Err(stop),
    }
}
