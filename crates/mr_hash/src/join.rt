ghost use Rattle.std.specs.Prelude.{◌≡◌, IfOk, OnOk};
ghost use Rattle.std.specs.FinMap.{find};
ghost use Rattle.mr_defs.specs.Commutative.{joined, joined_by};
ghost use Rattle.mr_container.specs.Entries.{cell_in, seen_of};
ghost use Rattle.mr_hash.specs.Joined.{AreJoined};
ghost use Rattle.mr_hash.specs.Pairs.{pairs_of};

use crate::ahead::{NO_CLUE, NOWHERE, read_lent};
use crate::entry::Entry;
use crate::near::place_of;
use crate::table::Table;
use mr_base::{Key, Memory};
use mr_combine::Combiner;
use std::alloc::Global;

// So many entries are read and looked for side by side.
const BLOCK: usize = 256;

/// Each key of these lent entries once, with all its cells merged into a copy of the first, in the order in which the keys come first.
// There is room from the start for the keys of half of the entries, so that the table grows at most once.
pub fn join_all<K: Key, C: Combiner>(
    alloc: Global,
    lent: &[(&K, &C::Cell)],
) -> Result<Vec<Entry<K, C::Cell>>, Memory>
    ensures { IfOk result (λ entries. AreJoined K.cmp C.merged lent.now entries.items) }
{
    let mut table = Table::<K, C, 1>::with_room(alloc, lent.len() / 2)?;
    let mut at: usize = 0;
    while at < lent.len() {
        let end = at + BLOCK.min(lent.len() - at);
        join_block(alloc, &mut table, &lent[at..end])?;
        at = end;
    }
    let Table { entries, .. } = table;
    Ok(entries)
}

// Joins the entries of a block in their order. All their keys are read and looked for before any of them is joined.
fn join_block<K: Key, C: Combiner>(
    alloc: Global,
    table: &mut Table<K, C, 1>,
    block: &[(&K, &C::Cell)],
) -> Result<(), Memory>
    ensures { OnOk result ((k : K) → find K.cmp k (pairs_of table.new.entries.items)
        ≡ joined C.merged (find K.cmp k (pairs_of table.old.entries.items)) (joined_by C.merged (cell_in K.cmp k) (seen_of block.now))) }
{
    let mut clues = [NO_CLUE; BLOCK];
    let mut places = [NOWHERE; BLOCK];
    let count = block.len().min(BLOCK);
    read_lent(block, &mut clues);
    table.look_ahead(&clues[..count], &mut places);
    for nth in 0..block.len() {
        let entry = &block[nth];
        table.join(alloc, place_of(&places, nth), entry.0, entry.1)?;
    }
    Ok(())
}
