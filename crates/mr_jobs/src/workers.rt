ghost use Rattle.std.specs.Prelude.{◌≡◌, ◌≤◌};

use std::alloc::Global;

/// The workers that a job runs with, from 1 to 32: the threads that they run in, the memory that they take, the gate that each enters
/// before a task, and whether it will be told what each of them did.
#[derive(Drop)]
pub struct Workers<'a, T, G> {
    pub rt: &'a T,
    pub alloc: Global,
    pub gate: &'a G,
    count: u32,
    reports: bool,
    ghost some: { 1 ≤ count },
    ghost few: { count ≤ 32 },
}

impl<'a, T, G> Workers<'a, T, G> {
    /// So many workers, from 1 to 32, of which a report is asked for or not.
    pub fn of(rt: &'a T, alloc: Global, gate: &'a G, count: u32, reports: bool) -> Workers<'a, T, G>
        requires some { 1 ≤ count }
        requires few { count ≤ 32 }
        ensures count { result.count ≡ count }
        ensures reports { result.reports ≡ reports }
    {
        Workers {
            rt,
            alloc,
            gate,
            count,
            reports,
        }
    }

    /// How many workers there are.
    pub fn count(&self) -> u32
        ensures count { result ≡ self.now.count }
        ensures some { 1 ≤ result }
        ensures few { result ≤ 32 }
    {
        self.count
    }

    /// Whether it will be told what each of them did.
    pub fn reports(&self) -> bool
        ensures { result ≡ self.now.reports }
    {
        self.reports
    }
}
