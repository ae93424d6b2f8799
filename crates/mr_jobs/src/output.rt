ghost use Rattle.std.specs.Prelude.{◌≡◌, ◌<◌, ◌≤◌, ◌∷◌, [], All, IfOk, List, length, slice_index_or};
ghost use Rattle.mr_defs.specs.Emission.{Row};
ghost use Rattle.mr_defs.specs.Limits.{input_limit};
ghost use Rattle.mr_items.specs.Texts as texts;
ghost use Rattle.mr_jobs.specs.Generated.{written_text};
ghost use Rattle.mr_jobs.specs.Outputs.{IsWritten};
ghost use Rattle.mr_merge.specs.Merged.{AreMerged, CanMerge, IsMergedText};

use crate::phases::Round;
use crate::refusal::{Refusal, refused_fault};
use crate::workers::Workers;
use mr_base::{Fault, Few, Key, Memory, Rows, Stop, Text};
use mr_generator::summary;
use mr_merge::{merge_all, merged_text};
use mr_outside::Taken;
use mr_report::Share;
use mr_text::rows_text;
use std::alloc::Global;
use std::thread::Threads;

/// What a job that wasn't refused gives.
#[derive(Drop)]
pub struct Output {
    /// The bytes that are to be written.
    pub text: Text,
    /// What each worker did, round by round, where a report is asked for. Else the rounds stand there with no workers.
    pub rounds: Few<Few<Share>>,
}

/// The bytes of the first input.
pub(crate) fn first_input(inputs: &[Taken]) -> &[u8]
    requires some { 0 < length inputs.now }
    requires short { All (λ bytes. length bytes ≤ input_limit) inputs.now }
    ensures input { result.now ≡ slice_index_or inputs.now 0 [] }
    ensures short { length result.now ≤ input_limit }
{
    inputs[0].as_bytes()
}

/// What is written of rows: their text, or the summary of it, which the run of a generated text of so many bytes ends with.
#[derive(Clone, Copy, Debug)]
pub enum Written {
    Rows,
    Summary(usize),
}

// The text of the rows of a round: of one list as it stands, and of several by ranges, beside each other.
fn rows_text_of<T: Threads + Sync, G, K: Key + Send + Sync>(
    workers: &Workers<T, G>,
    lists: Few<Rows<K>>,
) -> Result<Text, Memory>
    requires { CanMerge K.cmp lists.items }
    ensures { IfOk result (IsMergedText K.cmp K.printed lists.items) }
{
    if lists.len() > 1 {
        return merged_text(workers.rt, workers.alloc, lists);
    }
    let rows = merge_all(workers.rt, workers.alloc, lists)?;
    rows_text(workers.alloc, &rows)
}

// What is written of the lists of a round. Where it is the text of their rows, no row is moved.
fn text_of<T: Threads + Sync, G, K: Key + Send + Sync>(
    workers: &Workers<T, G>,
    written: Written,
    lists: Few<Rows<K>>,
) -> Result<Text, Memory>
    requires { CanMerge K.cmp lists.items }
    ensures { IfOk result (λ text. (rows : List (Row K)) × AreMerged K.cmp lists.items rows
        × (text ≡ written_text written K.printed rows)) }
{
    let Written::Summary(input) = written else {
        return rows_text_of(workers, lists);
    };
    let rows = merge_all(workers.rt, workers.alloc, lists)?;
    let text = rows_text(workers.alloc, &rows)?;
    summary(workers.alloc, input, rows.len(), &text)
}

/// The list of one.
pub(crate) fn only<T: Drop>(alloc: Global, item: T) -> Result<Few<T>, Memory>
    ensures { IfOk result (λ list. list.items ≡ item ∷ []) }
{
    let mut list = Few::with_room(alloc, 1)?;
    list.push(item);
    Ok(list)
}

/// What is written of the rows of a round, or the refusal of its fault.
pub(crate) fn written_output<T: Threads + Sync, G, K: Key + Send + Sync>(
    workers: &Workers<T, G>,
    written: Written,
    round: Result<Round<K>, Stop<Fault<K>>>,
) -> Result<Output, Stop<Refusal>>
    requires merge { IfOk round (λ r. CanMerge K.cmp r.lists.items) }
    ensures { IsWritten K.cmp K.shown_of (written_text written K.printed) round result }
{
    match round {
        Ok(Round { lists, shares }) => {
            let text = text_of(workers, written, lists)?;
            let rounds = only(workers.alloc, shares)?;
            Ok(Output { text, rounds })
        }
        Err(Stop::Refused(fault)) => Err(Stop::Refused(refused_fault(workers.alloc, &fault)?)),
        Err(Stop::Memory) => Err(Stop::Memory),
    }
}

/// The text of the rows of a round, or the refusal of its fault.
pub(crate) fn rows_output<T: Threads + Sync, G, K: Key + Send + Sync>(
    workers: &Workers<T, G>,
    round: Result<Round<K>, Stop<Fault<K>>>,
) -> Result<Output, Stop<Refusal>>
    requires merge { IfOk round (λ r. CanMerge K.cmp r.lists.items) }
    ensures { IsWritten K.cmp K.shown_of (texts.rows_text K.printed) round result }
{
    written_output(workers, Written::Rows, round)
}
