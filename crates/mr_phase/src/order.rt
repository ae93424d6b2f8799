ghost use Rattle.std.specs.Prelude.{◌≡◌, ◌<◌, ◌≤◌, map, length, IfOk};
ghost use Rattle.std.specs.List.Sorted.{IsNonDecreasing, IsPermutation};
ghost use Rattle.std.specs.Ordering.{is_lt};
ghost use Rattle.mr_phase.specs.Packed.{Fronts, picked, word_of, words_from};

use mr_base::{Key, Memory};
use std::alloc::Global;

// The leads of the entries.
fn leads_of<K: Key, C>(alloc: Global, entries: &[(&K, &C)]) -> Result<Vec<u64>, Memory>
    ensures { IfOk result (λ leads. leads.items ≡ map (λ e. K.lead_of e.0.now) entries.now) }
{
    let mut leads = Vec::with_capacity(alloc, entries.len())?;
    for entry in entries {
        leads.push(entry.0.lead())?;
    }
    Ok(leads)
}

// By what leads are divided, so that few have a front that is greater than those that are told apart.
fn unit_of(leads: &[u64]) -> u64
    ensures { 1 ≤ result }
{
    let mut all = 0;
    for lead in leads {
        all |= *lead;
    }
    let most = (u64::MAX / leads.len().max(1) as u64 - 1).max(1);
    (all / most).saturating_add(1)
}

// The number of the entry at a place with this lead.
fn word_of(unit: u64, count: u64, at: u64, lead: u64) -> u64
    requires unit { 1 ≤ unit }
    requires place { at < count }
    ensures { result ≡ word_of unit count at lead }
{
    let most = u64::MAX / count - 1;
    let front = lead / unit;
    let kept = if most < front { most } else { front };
    kept * count + at
}

// The numbers of entries with these leads, in their order.
fn words_of(alloc: Global, leads: &[u64], unit: u64) -> Result<Vec<u64>, Memory>
    requires { 1 ≤ unit }
    ensures { IfOk result (λ words. words.items ≡ words_from unit (length leads.now) 0 leads.now) }
{
    let count = leads.len() as u64;
    let mut words = Vec::with_capacity(alloc, leads.len())?;
    let mut at: u64 = 0;
    for lead in leads {
        words.push(word_of(unit, count, at, *lead))?;
        at += 1;
    }
    Ok(words)
}

/// A number for each entry, its front above its place; the numbers don't fall, and most keys are told apart by them.
pub(crate) fn packed<K: Key, C>(alloc: Global, entries: &[(&K, &C)]) -> Result<Vec<u64>, Memory>
    ensures len { IfOk result (λ words. length words.items ≡ length entries.now) }
    ensures rise { IfOk result (λ words. IsNonDecreasing words.items) }
    ensures fronts { IfOk result (λ words. Fronts (λ a b. is_lt (K.cmp a.0.now b.0.now)) entries.now words.items) }
    ensures all { IfOk result (λ words. IsPermutation entries.now (picked entries.now words.items)) }
{
    let leads = leads_of(alloc, entries)?;
    let unit = unit_of(&leads);
    let mut words = words_of(alloc, &leads, unit)?;
    words.sort_unstable();
    Ok(words)
}
