ghost use Rattle.std.specs.Prelude.{◌≡◌, ◌≤◌, ◌∷◌, [], All, IfOk, false, length};
ghost use Rattle.mr_capacity.specs.Folds.{folded};
ghost use Rattle.mr_capacity.specs.declared.jobs.JobKind.TheVariants as kind;
ghost use Rattle.mr_defs.specs.Limits.{input_limit};
ghost use Rattle.mr_defs.specs.Tasks.{most_tasks};
ghost use Rattle.mr_items.specs.Keys.{all_inside};
ghost use Rattle.mr_jobfile.specs.Seen.{seen};
ghost use Rattle.mr_jobs.specs.Generated.{counted_words, generated_ending};
ghost use Rattle.mr_jobs.specs.Jobs.{IsLawfulReport};
ghost use Rattle.mr_jobs.specs.Meets.{IsOfInputs, MeetsSeen};
ghost use Rattle.mr_jobs.specs.Outputs.{IsJobOutput, IsOutputOf};
ghost use Rattle.mr_jobs.specs.Printable.{IsPrintable};
ghost use Rattle.mr_jobs.specs.Reported.{reported};
ghost use Rattle.mr_jobs.specs.RoundOf.{IsRoundOfTasks};
ghost use Rattle.mr_report.specs.Shown.{rounds_seen};
ghost use Rattle.mr_split.specs.declared.boundary.Boundary.{Boundary};

use crate::output::{Output, Written, first_input, written_output};
use crate::phases::Round;
use crate::refusal::Refusal;
use crate::round::table_round;
use crate::workers::Workers;
use mr_base::{Fault, Stop};
use mr_capacity::{CombinerKind, at_combiner};
use mr_combine::{Count, One, Plain, Sum};
use mr_container::Mapper;
use mr_jobfile::Job;
use mr_outside::{Gate, Taken};
use mr_split::{Boundary, pieces};
use mr_text::WordCount;
use std::thread::Threads;

// A round of words as the job says: they are added up, or counted, or noted to be there.
fn counted<T: Threads + Sync, G: Gate + Sync, M: Mapper<Value = i64> + Sync>(
    workers: &Workers<T, G>,
    job: &Job,
    mapper: &M,
) -> Result<Round<M::Key>, Stop<Fault<M::Key>>>
where
    M::Key: Send + Sync,
    requires kind { job.now.job ≡ kind.WordCount }
    requires tasks { M.task_count mapper.now ≤ most_tasks }
    ensures { IsRoundOfTasks M.Key.cmp all_inside false (folded job.now.combiner job.now.reducer)
        (reported workers.now) (M.task_count mapper.now) (M.task_emissions mapper.now) result }
{
    at_combiner!(job.combiner, { Sum, Count, One }, table_round[T, G, M](workers, job, mapper))
}

// What is written of the words of an input.
fn words<T: Threads + Sync, G: Gate + Sync>(
    workers: &Workers<T, G>,
    job: &Job,
    input: &[u8],
    written: Written,
) -> Result<Output, Stop<Refusal>>
    requires kind { job.now.job ≡ kind.WordCount }
    requires short { length input.now ≤ input_limit }
    ensures { IsOutputOf (seen job.now) (counted_words (seen job.now) written input.now) (reported workers.now) result }
{
    let pieces = pieces(workers.alloc, input, job.chunk, Boundary::Word)?;
    let mapper = WordCount::new(input, &pieces);
    written_output(workers, written, counted(workers, job, &mapper))
}

/// Runs `word_count`: each word of the input is a key, folded to small letters, with the value 1.
pub(crate) fn word_count<T: Threads + Sync, G: Gate + Sync>(
    workers: &Workers<T, G>,
    job: &Job,
    inputs: &[Taken],
) -> Result<Output, Stop<Refusal>>
    requires kind { job.now.job ≡ kind.WordCount }
    requires count { length inputs.now ≡ 1 }
    requires short { All (λ bytes. length bytes ≤ input_limit) inputs.now }
    ensures { IsJobOutput (seen job.now) inputs.now (reported workers.now) result }
{
    words(workers, job, first_input(inputs), Written::Rows)
}

/// Counts the words of a generated text, whose summary is the text of the output: the job is `word_count`.
pub fn run_generated<T: Threads + Sync, G: Gate + Sync>(
    workers: &Workers<T, G>,
    job: &Job,
    text: &Taken,
) -> Result<Output, Stop<Refusal>>
    requires kind { job.now.job ≡ kind.WordCount }
    requires short { length text.now ≤ input_limit }
    ensures ending { MeetsSeen (λ o. o.text) (generated_ending (seen job.now) text.now) result }
    ensures of_inputs { IsOfInputs result }
    ensures shares { IfOk result (λ o. IsLawfulReport (seen job.now) (text.now ∷ []) (reported workers.now) (rounds_seen o.rounds.items)) }
    ensures printable { IfOk result IsPrintable }
{
    let input = text.as_bytes();
    words(workers, job, input, Written::Summary(input.len()))
}
