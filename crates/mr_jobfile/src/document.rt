ghost use Rattle.std.specs.Prelude.{◌≡◌, Some, None, IfOk, is_some, not, option_map};
ghost use Rattle.toml.specs.Data.{get_member};
ghost use Rattle.toml.specs.View.{table_view};
ghost use Rattle.mr_jobfile.specs.JobOf.{document_of};
ghost use Rattle.mr_jobfile.specs.Keys.{first_missing, least_unknown, is_known, key_text};

use crate::fault::JobFault;
use crate::key::{ALL_KEYS, JobKey, NEEDED_KEYS};
use mr_base::Stop;
use std::alloc::Global;
use toml::Table;

/// The top table of the file, as `toml` reads it.
pub fn document(alloc: Global, bytes: &[u8]) -> Result<Table, Stop<JobFault>>
    ensures ok { IfOk result (λ t. document_of bytes.now ≡ Some (table_view t)) }
    ensures refused { (f : JobFault) → result ≡ Err (Stop.Refused f) → (f ≡ JobFault.NotToml) × (document_of bytes.now ≡ None) }
{
    let Ok(text) = str::from_utf8(bytes) else {
        return Err(Stop::Refused(JobFault::NotToml));
    };
    match toml::table_from_str(alloc, text) {
        Ok(table) => Ok(table),
        Err(error) => {
            if error.is_memory() {
                Err(Stop::Memory)
            } else {
                Err(Stop::Refused(JobFault::NotToml))
            }
        }
    }
}

fn is_known(name: &str) -> bool
    ensures { result ≡ is_known name.now }
{
    ALL_KEYS.iter().any(|key| name == key.text())
}

/// The least key in byte order that no job file has.
pub fn least_unknown<'t>(table: &'t Table) -> Option<&'t str>
    ensures { option_map (λ s. s.now) result ≡ least_unknown (table_view table.now) }
{
    for name in table.keys() {
        if !is_known(name.as_str()) {
            return Some(name.as_str());
        }
    }
    None
}

fn is_missing(table: &Table, key: JobKey) -> bool
    ensures { result ≡ not (is_some (get_member (key_text key) (table_view table.now))) }
{
    table.get(key.text()).is_none()
}

/// The first needed key that isn't there.
pub fn first_missing(table: &Table) -> Option<JobKey>
    ensures { result ≡ first_missing (table_view table.now) }
{
    NEEDED_KEYS
        .iter()
        .copied()
        .find(|key| is_missing(table, *key))
}
