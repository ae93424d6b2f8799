ghost use Rattle.std.specs.Prelude.{◌≡◌, Ok, Err, IfOk};
ghost use Rattle.toml.specs.View.{table_view};
ghost use Rattle.mr_jobfile.specs.JobOf.{job_of, judged};
ghost use Rattle.mr_jobfile.specs.Seen.{seen};

use crate::document::{document, first_missing, least_unknown};
use crate::fault::JobFault;
use crate::forms::first_bad;
use crate::job::Job;
use crate::pairing::described;
use crate::values::Values;
use mr_base::{ByteKey, Stop};
use std::alloc::Global;
use toml::Table;

/// The most bytes that a job file may have.
pub const JOB_LIMIT: usize = 65536;

/// The fault of an unknown key.
fn unknown(alloc: Global, name: &str) -> Stop<JobFault>
    ensures { (f : JobFault) → result ≡ Stop.Refused f → f ≡ JobFault.Unknown name.now }
{
    match ByteKey::of(alloc, name.as_bytes()) {
        Ok(key) => Stop::Refused(JobFault::Unknown(key)),
        Err(_) => Stop::Memory,
    }
}

/// The job of a table, or the first of its faults.
fn judged(alloc: Global, table: &Table) -> Result<Job, Stop<JobFault>>
    ensures job { IfOk result (λ j. judged (table_view table.now) ≡ Ok (seen j)) }
    ensures fault { (f : JobFault) → result ≡ Err (Stop.Refused f) → judged (table_view table.now) ≡ Err f }
{
    if let Some(name) = least_unknown(table) {
        return Err(unknown(alloc, name));
    }
    if let Some(key) = first_missing(table) {
        return Err(Stop::Refused(JobFault::Missing(key)));
    }
    if let Some(key) = first_bad(table) {
        return Err(Stop::Refused(JobFault::BadValue(key)));
    }
    let values = Values::read(alloc, table)?;
    match described(alloc, values) {
        Some(job) => Ok(job),
        None => Err(Stop::Refused(JobFault::Pairing)),
    }
}

/// Reads a job file: a TOML document of at most 65536 bytes (TOML 1.1), of which only the top table is looked at.
///
/// The fault is the first that holds: too long, no TOML, the least unknown key, the first missing key, the first key with a bad value, no
/// row of the table of pairings.
pub fn read_job(alloc: Global, bytes: &[u8]) -> Result<Job, Stop<JobFault>>
    ensures job { IfOk result (λ j. job_of bytes.now ≡ Ok (seen j)) }
    ensures fault { (f : JobFault) → result ≡ Err (Stop.Refused f) → job_of bytes.now ≡ Err f }
{
    if bytes.len() > JOB_LIMIT {
        return Err(Stop::Refused(JobFault::TooLong));
    }
    match document(alloc, bytes) {
        Ok(table) => judged(alloc, &table),
        Err(stop) => Err(stop),
    }
}
