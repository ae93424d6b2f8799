ghost use Rattle.std.specs.Prelude.{◌≡◌, ◌≤◌, IfOk, IfErr, Ok, Err, Some, is_some, true, length};
ghost use Rattle.mr_base.specs.declared.status.Status.TheVariants as status;
ghost use Rattle.mr_jobfile.specs.Seen.{seen};
ghost use Rattle.mr_jobs.specs.Meets.{MeetsSeen};
ghost use Rattle.mr_outside.specs.Shelf.{HasContent};
ghost use Rattle.mr_top.specs.Halts.{Halts, IsOfJob, IsPastWords, HasJobStatus};
ghost use Rattle.mr_top.specs.RunEnding.{job_at, job_in, job_end};
ghost use Rattle.mr_top.specs.Stages.{ComesTo};

use crate::halt::Halt;
use crate::reading::take_bytes;
use mr_base::{Memory, Status, Stop};
use mr_jobfile::{Job, JobFault, fault_text, read_job};
use mr_jobs::Refusal;
use mr_outside::{Shelf, Taken};
use std::alloc::Global;

// The most bytes of a job file.
const LIMIT: u64 = 65536;

/// The refusal of a job file with this fault.
pub fn refused(alloc: Global, fault: &JobFault) -> Result<Refusal, Memory>
    ensures fault { IfOk result (λ r. job_end (Err fault.now) ≡ Err r) }
    ensures status { IfOk result (λ r. r.status ≡ status.Job) }
{
    let line = fault_text(alloc, fault)?;
    Ok(Refusal {
        status: Status::Job,
        line,
    })
}

// The job in a file, of which None stands for one that is too long.
fn job_in(alloc: Global, read: Option<Taken>) -> Result<Job, Stop<Refusal>>
    ensures meets { MeetsSeen seen (job_in read) result }
    ensures of_job { HasJobStatus result }
{
    let Some(taken) = read else {
        return Err(Stop::Refused(refused(alloc, &JobFault::TooLong)?));
    };
    match read_job(alloc, taken.as_bytes()) {
        Ok(job) => Ok(job),
        Err(Stop::Refused(fault)) => Err(Stop::Refused(refused(alloc, &fault)?)),
        Err(Stop::Memory) => Err(Stop::Memory),
    }
}

/// Reads the job file of this name, and the job in it.
pub fn take_job<H: Shelf>(alloc: Global, shelf: &mut H, name: &str) -> Result<Job, Halt>
    ensures kept { H.contents shelf.new ≡ H.contents shelf.old }
    ensures later { H.count shelf.old ≤ H.count shelf.new }
    ensures ok { IfOk result (λ job. ComesTo (H.contents shelf.old) (job_at name.now) (Ok (seen job))) }
    ensures err { IfErr result (λ h. Halts h (H.contents shelf.old) (job_at name.now) (H.count shelf.old) (H.count shelf.new)) }
    ensures behind { IfErr result IsPastWords }
    ensures started { IfErr result (λ h. IsOfJob h → H.is_started shelf.new ≡ true) }
    ensures named { is_some (H.contents shelf.old) ≡ true → H.is_started shelf.new ≡ true → H.started shelf.new ≡ name.now }
    // After Ok the name was read to its end.
    ensures open { IfOk result (λ job. H.is_started shelf.new ≡ true) }
    ensures whole { IfOk result (λ job. HasContent (H.contents shelf.old) name.now (λ bytes. H.place shelf.new ≡ length bytes)) }
{
    let read = take_bytes(alloc, shelf, name, LIMIT)?;
    let job = job_in(alloc, read)?;
    Ok(job)
}
