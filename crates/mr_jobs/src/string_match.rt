ghost use Rattle.std.specs.Prelude.{◌≡◌, ◌≤◌, All, length};
ghost use Rattle.std.specs.Ordering.{nat_cmp};
ghost use Rattle.mr_capacity.specs.Folds.{folded};
ghost use Rattle.mr_capacity.specs.declared.jobs.JobKind.TheVariants as kind;
ghost use Rattle.mr_defs.specs.Limits.{input_limit};
ghost use Rattle.mr_defs.specs.Tasks.{most_tasks};
ghost use Rattle.mr_jobfile.specs.Seen.{seen};
ghost use Rattle.mr_jobs.specs.Meaning.{inside_of, is_shared};
ghost use Rattle.mr_jobs.specs.Outputs.{IsJobOutput};
ghost use Rattle.mr_jobs.specs.Reported.{reported};
ghost use Rattle.mr_jobs.specs.RoundOf.{IsRoundOfTasks};
ghost use Rattle.mr_split.specs.declared.boundary.Boundary.{Boundary};

use crate::output::{Output, first_input, rows_output};
use crate::phases::Round;
use crate::refusal::Refusal;
use crate::round::own_round;
use crate::workers::Workers;
use mr_base::{Fault, NumKey, Stop};
use mr_capacity::{CombinerKind, at_combiner};
use mr_combine::{Count, One, Plain, Sum};
use mr_container::Mapper;
use mr_jobfile::Job;
use mr_lines::StringMatch;
use mr_outside::{Gate, Taken};
use mr_split::{Boundary, pieces};
use std::thread::Threads;

// A round of patterns as the job says: they are added up, or counted, or noted to stand in a line.
fn matched<T: Threads + Sync, G: Gate + Sync, M: Mapper<Key = NumKey, Value = i64> + Sync>(
    workers: &Workers<T, G>,
    job: &Job,
    mapper: &M,
) -> Result<Round<NumKey>, Stop<Fault<NumKey>>>
    requires kind { job.now.job ≡ kind.StringMatch }
    requires tasks { M.task_count mapper.now ≤ most_tasks }
    ensures { IsRoundOfTasks nat_cmp (inside_of job.now.container job.now.capacity) (is_shared job.now.container)
        (folded job.now.combiner job.now.reducer)
        (reported workers.now) (M.task_count mapper.now) (M.task_emissions mapper.now) result }
{
    at_combiner!(job.combiner, { Sum, Count, One }, own_round[T, G, M](workers, job, mapper))
}

/// Runs `string_match`: the number of each pattern that stands in a line is a key, with the value 1.
pub(crate) fn string_match<T: Threads + Sync, G: Gate + Sync>(
    workers: &Workers<T, G>,
    job: &Job,
    inputs: &[Taken],
) -> Result<Output, Stop<Refusal>>
    requires kind { job.now.job ≡ kind.StringMatch }
    requires count { length inputs.now ≡ 1 }
    requires short { All (λ bytes. length bytes ≤ input_limit) inputs.now }
    ensures { IsJobOutput (seen job.now) inputs.now (reported workers.now) result }
{
    let input = first_input(inputs);
    let pieces = pieces(workers.alloc, input, job.chunk, Boundary::Line)?;
    let mapper = StringMatch::new(input, &pieces, &job.patterns);
    rows_output(workers, matched(workers, job, &mapper))
}
