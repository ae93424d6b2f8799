ghost use Rattle.std.specs.Prelude.{◌≡◌, ◌++◌, IfOk};
ghost use Rattle.mr_items.specs.FaultLines.{fault_line, shown_text};
ghost use Rattle.mr_jobfile.specs.FaultText.{fault_words, job_line};

use crate::key::JobKey;
use mr_base::{ByteKey, Memory, Text};
use std::alloc::Global;

/// Why a job file is refused: the first that holds.
#[derive(Drop)]
pub enum JobFault {
    /// More than 65536 bytes.
    TooLong,
    /// No TOML document.
    NotToml,
    /// The least key in byte order that no job file has.
    Unknown(ByteKey),
    /// The first key that every job file needs and this one lacks.
    Missing(JobKey),
    /// The first key with a value of another type, or out of its list or range.
    BadValue(JobKey),
    /// Keys and values that fit no row of the table of pairings.
    Pairing,
}

/// The line for standard error that says why, with its byte 10 at the end.
pub fn fault_text(alloc: Global, fault: &JobFault) -> Result<Text, Memory>
    ensures { IfOk result (λ text. text ≡ job_line fault.now) }
{
    let mut text = Text::new(alloc);
    text.push(b"fault: job ")?;
    match fault {
        JobFault::TooLong => text.push(b"too long")?,
        JobFault::NotToml => text.push(b"not toml")?,
        JobFault::Unknown(name) => {
            text.push(b"unknown ")?;
            text.push_shown(name.as_bytes())?;
        }
        JobFault::Missing(key) => {
            text.push(b"missing ")?;
            text.push(key.text().as_bytes())?;
        }
        JobFault::BadValue(key) => {
            text.push(b"bad ")?;
            text.push(key.text().as_bytes())?;
        }
        JobFault::Pairing => text.push(b"pairing")?,
    }
    text.push(b"\n")?;
    Ok(text)
}
