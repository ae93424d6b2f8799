//! Runs a job on the bytes of its inputs.
//!
//! What a job means is a line of `specs/Jobs.antt`: rounds over items that are cut into tasks, or the refusal of an input. From it follow
//! for all jobs alike what the job comes to (`job_ending`: the text of the last round's rows, or the first fault of the first round that
//! has one), which knows no task, worker or partition, and what is told of its workers (`IsLawfulReport`): what each may have done, where a
//! report is asked for, and else nothing. A job is a module that makes its mapper and names its types; what maps, reduces and refuses
//! stands once, over the traits alone.
//!
//! Its promise: `run_job` gives the text of that ending, or its refusal with status and line. Want of memory alone is free.
#![tactic(auto)]

ghost use Rattle.std.specs.Prelude.{◌≡◌, ◌≤◌, All, IfOk, length};
ghost use Rattle.mr_defs.specs.Limits.{input_limit};
ghost use Rattle.mr_jobfile.specs.Seen.{seen};
ghost use Rattle.mr_jobs.specs.Jobs.{IsLawfulReport, inputs_wanted, job_ending};
ghost use Rattle.mr_jobs.specs.Meets.{IsOfInputs, MeetsSeen};
ghost use Rattle.mr_jobs.specs.Outputs.{IsJobOutput};
ghost use Rattle.mr_jobs.specs.Printable.{IsPrintable};
ghost use Rattle.mr_jobs.specs.Reported.{reported};
ghost use Rattle.mr_report.specs.Shown.{rounds_seen};

mod fold_lines;
mod histogram;
mod input;
mod inverted_index;
mod kmeans;
mod linear_regression;
mod matrix_product;
mod output;
mod pca;
mod phases;
mod refusal;
mod round;
mod rounds;
mod shared;
mod string_match;
mod word_count;
mod workers;

use fold_lines::fold_lines;
use histogram::histogram;
use inverted_index::inverted_index;
use kmeans::kmeans;
use linear_regression::linear_regression;
use matrix_product::matrix_product;
use mr_base::Stop;
use mr_capacity::JobKind;
use mr_jobfile::Job;
use mr_outside::{Gate, Taken};
pub use output::Output;
use pca::pca;
pub use refusal::{Refusal, input_words};
use std::thread::Threads;
use string_match::string_match;
pub use word_count::run_generated;
use word_count::word_count;
pub use workers::Workers;

/// The number of inputs that a job has.
pub fn wanted(kind: JobKind) -> u32
    ensures { result ≡ inputs_wanted kind }
{
    match kind {
        JobKind::MatrixProduct => 2,
        _ => 1,
    }
}

// What the job comes to on the bytes of its inputs.
fn output_of<T: Threads + Sync, G: Gate + Sync>(
    workers: &Workers<T, G>,
    job: &Job,
    inputs: &[Taken],
) -> Result<Output, Stop<Refusal>>
    requires count { length inputs.now ≡ inputs_wanted job.now.job }
    requires short { All (λ bytes. length bytes ≤ input_limit) inputs.now }
    ensures { IsJobOutput (seen job.now) inputs.now (reported workers.now) result }
{
    match job.job {
        JobKind::WordCount => word_count(workers, job, inputs),
        JobKind::FoldLines => fold_lines(workers, job, inputs),
        JobKind::InvertedIndex => inverted_index(workers, job, inputs),
        JobKind::StringMatch => string_match(workers, job, inputs),
        JobKind::Histogram => histogram(workers, job, inputs),
        JobKind::LinearRegression => linear_regression(workers, job, inputs),
        JobKind::MatrixProduct => matrix_product(workers, job, inputs),
        JobKind::KMeans => kmeans(workers, job, inputs),
        JobKind::Pca => pca(workers, job, inputs),
    }
}

/// Runs the job on the bytes of its inputs: as many as it has, each of at most 134217728 bytes.
pub fn run_job<T: Threads + Sync, G: Gate + Sync>(
    workers: &Workers<T, G>,
    job: &Job,
    inputs: &[Taken],
) -> Result<Output, Stop<Refusal>>
    requires count { length inputs.now ≡ inputs_wanted job.now.job }
    requires short { All (λ bytes. length bytes ≤ input_limit) inputs.now }
    ensures ending { MeetsSeen (λ o. o.text) (job_ending (seen job.now) inputs.now) result }
    ensures of_inputs { IsOfInputs result }
    ensures shares { IfOk result (λ o. IsLawfulReport (seen job.now) inputs.now (reported workers.now) (rounds_seen o.rounds.items)) }
    ensures printable { IfOk result IsPrintable }
{
    output_of(workers, job, inputs)
}
