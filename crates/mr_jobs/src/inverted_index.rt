ghost use Rattle.std.specs.Prelude.{◌≡◌, ◌≤◌, All, false, length};
ghost use Rattle.mr_capacity.specs.Folds.{folded};
ghost use Rattle.mr_capacity.specs.declared.jobs.JobKind.TheVariants as kind;
ghost use Rattle.mr_defs.specs.Limits.{input_limit};
ghost use Rattle.mr_defs.specs.Tasks.{most_tasks};
ghost use Rattle.mr_items.specs.Keys.{all_inside};
ghost use Rattle.mr_jobfile.specs.Seen.{seen};
ghost use Rattle.mr_jobs.specs.Outputs.{IsJobOutput};
ghost use Rattle.mr_jobs.specs.Reported.{reported};
ghost use Rattle.mr_jobs.specs.RoundOf.{IsRoundOfTasks};
ghost use Rattle.mr_split.specs.declared.boundary.Boundary.{Boundary};

use crate::output::{Output, first_input, rows_output};
use crate::phases::Round;
use crate::refusal::Refusal;
use crate::round::table_round;
use crate::workers::Workers;
use mr_base::{Fault, Stop};
use mr_capacity::{CombinerKind, ReducerKind, at_combiner, at_reducer};
use mr_combine::{Buffer, Count, Distinct, List, Max, Min, Plain};
use mr_container::Mapper;
use mr_jobfile::Job;
use mr_lines::InvertedIndex;
use mr_outside::{Gate, Taken};
use mr_split::{Boundary, pieces};
use std::thread::Threads;

// A round of words as the job says: the first or the last line of each, how often it stands there, or all its lines.
fn placed<T: Threads + Sync, G: Gate + Sync, M: Mapper<Value = i64> + Sync>(
    workers: &Workers<T, G>,
    job: &Job,
    mapper: &M,
) -> Result<Round<M::Key>, Stop<Fault<M::Key>>>
where
    M::Key: Send + Sync,
    requires kind { job.now.job ≡ kind.InvertedIndex }
    requires tasks { M.task_count mapper.now ≤ most_tasks }
    ensures { IsRoundOfTasks M.Key.cmp all_inside false (folded job.now.combiner job.now.reducer)
        (reported workers.now) (M.task_count mapper.now) (M.task_emissions mapper.now) result }
{
    match job.combiner {
        CombinerKind::Buffer => {
            at_reducer!(job.reducer, { List, Distinct }, table_round[T, G, M](workers, job, mapper))
        }
        _ => {
            at_combiner!(job.combiner, { Min, Max, Count }, table_round[T, G, M](workers, job, mapper))
        }
    }
}

/// Runs `inverted_index`: each word of a line is a key, folded to small letters, with the offset of the line's first byte.
pub(crate) fn inverted_index<T: Threads + Sync, G: Gate + Sync>(
    workers: &Workers<T, G>,
    job: &Job,
    inputs: &[Taken],
) -> Result<Output, Stop<Refusal>>
    requires kind { job.now.job ≡ kind.InvertedIndex }
    requires count { length inputs.now ≡ 1 }
    requires short { All (λ bytes. length bytes ≤ input_limit) inputs.now }
    ensures { IsJobOutput (seen job.now) inputs.now (reported workers.now) result }
{
    let input = first_input(inputs);
    let pieces = pieces(workers.alloc, input, job.chunk, Boundary::Line)?;
    let mapper = InvertedIndex::new(input, &pieces);
    rows_output(workers, placed(workers, job, &mapper))
}
