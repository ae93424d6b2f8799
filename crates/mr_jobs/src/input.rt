ghost use Rattle.std.specs.Prelude.{◌≡◌, ◌≤◌, ◌<◌, ◌+◌, [], ℕ, All, IfOk, Ok, length, slice_index_or};
ghost use Rattle.mr_defs.specs.Limits.{input_limit};
ghost use Rattle.mr_base.specs.declared.status.Status.TheVariants as status;
ghost use Rattle.mr_items.specs.FaultLines.{bitmap_line, bitmap_name, grid_line, input_line};
ghost use Rattle.mr_items.specs.Grid.{columns_of, grid_of};
ghost use Rattle.mr_jobs.specs.Jobs.{gridded};
ghost use Rattle.mr_jobs.specs.Meets.{IsOfInputs, MeetsSeen};

use crate::refusal::{Refusal, input_words, offset_words};
use crate::workers::Workers;
use mr_base::{Memory, Status, Stop, Text};
use mr_grid::{BitmapFault, Grid, GridFault, read_grid_by};
use mr_outside::Taken;
use std::alloc::Global;
use std::thread::Threads;

/// The refusal of the input with this number, from 1.
pub(crate) fn refused_input(alloc: Global, number: usize, text: &[u8]) -> Result<Refusal, Memory>
    ensures status { IfOk result (λ r. r.status ≡ status.Input) }
    ensures line { IfOk result (λ r. r.line ≡ input_line number text.now) }
{
    let words = input_words(alloc, number, text)?;
    Refusal::of(alloc, Status::Input, words.as_bytes())
}

fn bitmap_name(fault: BitmapFault) -> &'static [u8]
    ensures { result.now ≡ bitmap_name fault }
{
    match fault {
        BitmapFault::Short => b"short",
        BitmapFault::Magic => b"magic",
        BitmapFault::Header => b"header",
        BitmapFault::Planes => b"planes",
        BitmapFault::Depth => b"depth",
        BitmapFault::Compressed => b"compressed",
        BitmapFault::Width => b"width",
        BitmapFault::Height => b"height",
        BitmapFault::Place => b"place",
        BitmapFault::Pixels => b"pixels",
    }
}

/// The refusal of the fault of a bitmap in the input with this number.
pub(crate) fn refused_bitmap(
    alloc: Global,
    number: usize,
    fault: BitmapFault,
) -> Result<Refusal, Memory>
    ensures status { IfOk result (λ r. r.status ≡ status.Input) }
    ensures line { IfOk result (λ r. r.line ≡ bitmap_line number fault) }
{
    let mut words = Text::new(alloc);
    words.push(b"bitmap ")?;
    words.push(bitmap_name(fault))?;
    refused_input(alloc, number, words.as_bytes())
}

// The words of the fault of a grid.
fn grid_words(alloc: Global, fault: GridFault) -> Result<Text, Memory>
    ensures { IfOk result (λ words. (number : ℕ) → input_line number words ≡ grid_line number fault) }
{
    match fault {
        GridFault::Number(offset) => offset_words(alloc, b"grid number at ", offset),
        GridFault::Ragged(offset) => offset_words(alloc, b"grid ragged at ", offset),
        GridFault::Wide(offset) => offset_words(alloc, b"grid wide at ", offset),
    }
}

// The refusal of the fault of a grid in the input with this number.
fn refused_grid(alloc: Global, number: usize, fault: GridFault) -> Result<Refusal, Memory>
    ensures status { IfOk result (λ r. r.status ≡ status.Input) }
    ensures line { IfOk result (λ r. r.line ≡ grid_line number fault) }
{
    let words = grid_words(alloc, fault)?;
    refused_input(alloc, number, words.as_bytes())
}

/// The grid of the input at a place, or the refusal of its fault. All workers read it.
pub(crate) fn grid_input<T: Threads + Sync, G>(
    workers: &Workers<T, G>,
    inputs: &[Taken],
    place: usize,
) -> Result<Grid, Stop<Refusal>>
    requires place { place < length inputs.now }
    requires short { All (λ bytes. length bytes ≤ input_limit) inputs.now }
    ensures grid { MeetsSeen (λ g. g) (gridded (place + 1) (grid_of (slice_index_or inputs.now place []))) result }
    ensures read { IfOk result (λ g. grid_of (slice_index_or inputs.now place []) ≡ Ok g) }
    ensures columns { IfOk result (λ g. columns_of g ≤ 1024) }
    ensures rows { IfOk result (λ g. length g ≤ input_limit) }
    ensures of_inputs { IsOfInputs result }
{
    let bytes = inputs[place].as_bytes();
    match read_grid_by(workers.rt, workers.alloc, workers.count(), bytes) {
        Ok(grid) => Ok(grid),
        Err(Stop::Refused(fault)) => Err(Stop::Refused(refused_grid(
            workers.alloc,
            place + 1,
            fault,
        )?)),
        Err(Stop::Memory) => Err(Stop::Memory),
    }
}
