ghost use Rattle.std.specs.Prelude.{◌≡◌, ◌≤◌, [], length, IfOk};
ghost use Rattle.mr_hash.specs.Chaining.{IsChained};

use crate::ahead::NOWHERE;
use mr_base::Memory;
use std::alloc::Global;

/// For each partition the place of its first entry, and for each entry the place of the next one of its partition. Where there is none it
/// is a number past all places. With no heads it tells nothing.
#[derive(Drop)]
pub struct Chains {
    pub heads: Vec<u32>,
    pub links: Vec<u32>,
}

/// Chains that tell nothing.
pub fn no_chains(alloc: Global) -> Chains
    ensures { result.heads.items ≡ [] }
{
    Chains {
        heads: Vec::new(alloc),
        links: Vec::new(alloc),
    }
}

/// The chains of entries with these buckets, in so many partitions.
// From the last entry on: what is in front of a chain is its head so far.
pub fn chained(alloc: Global, buckets: &[u16], parts: u32) -> Result<Chains, Memory>
    requires some { 1 ≤ parts }
    requires few { length buckets.now ≤ 4294967295 }
    ensures { IfOk result (λ chains. IsChained chains.heads.items chains.links.items buckets.now) }
{
    let mut heads = vec![in alloc; NOWHERE; parts as usize]?;
    let mut links = vec![in alloc; NOWHERE; buckets.len()]?;
    let mut at = buckets.len();
    while at > 0 {
        at -= 1;
        let part = (buckets[at] as u32 % parts) as usize;
        links[at] = heads[part];
        heads[part] = at as u32;
    }
    Ok(Chains { heads, links })
}
